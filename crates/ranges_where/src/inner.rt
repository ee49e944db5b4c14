// Workers that assume what the calls have asked.
ghost use Rattle.std.specs.Prelude.{◌+◌, ◌≤◌, ◌<◌, ◌^◌, ◌&&◌, not, cond, ◌≡◌, length, None};
ghost use Rattle.column.specs.Questions.{ends_valid};
ghost use Rattle.column.specs.Runs.{runs_of};
ghost use Rattle.ranges_where.specs.Calls.{ranges_of};
ghost use Rattle.ranges_where.specs.Workers.{passing, FirstPassing, open_after, FilledRanges};

use column::sequence;

// The lowest index of a value that passes, or how many values there are.
fn first_passing(values: &[i64], code: u8, number: i64) -> usize
    requires { (7 ≤ code) × (code ≤ 8) }
    ensures { FirstPassing (passing code number) values.now result }
{
    for (i, value) in values.iter().enumerate() {
        if num::holds(code, *value, number) {
            return i;
        }
    }
    values.len()
}

// The last range so far, at its place, and whether the last run is in it.
#[derive(Clone, Copy)]
struct Open {
    at: usize,
    start: i64,
    end: i64,
    inside: bool,
}

fn begins(passes: bool, inside: bool) -> bool
    ensures { result ≡ not inside && passes }
{
    !inside && passes
}

fn place(begins: bool, at: usize) -> usize
    requires { at + 1 < 2 ^ 64 }
    ensures { result ≡ cond begins (at + 1) at }
{
    if begins { at + 1 } else { at }
}

fn choose(first: bool, x: i64, y: i64) -> i64
    ensures { result ≡ cond first x y }
{
    if first { x } else { y }
}

// One more run, from `start` up to `end`: nothing but numbers is chosen, so that no branch has to be guessed.
fn next_range(last: Open, passes: bool, start: i64, end: i64) -> Open
    requires { last.at + 1 < 2 ^ 64 }
    ensures { result ≡ open_after last passes start end }
{
    let new = begins(passes, last.inside);
    Open {
        at: place(new, last.at),
        start: choose(new, start, last.start),
        end: choose(passes, end, last.end),
        inside: passes,
    }
}

// From the first run that passes on every run writes the last range, as it is then.
pub fn ranges_where(
    ends: &[i64],
    values: &[i64],
    code: u8,
    number: i64,
    out_starts: &mut [i64],
    out_ends: &mut [i64],
) -> usize
    requires { (7 ≤ code) × (code ≤ 8) × (ends_valid ends.now ≡ None) × (length ends.now ≡ length values.now)
        × (length ends.now ≤ length out_starts.old) × (length ends.now ≤ length out_ends.old) }
    ensures { FilledRanges (ranges_of code number (runs_of ends.now values.now))
        out_starts.old out_starts.new out_ends.old out_ends.new result }
{
    let first = first_passing(values, code, number);
    if first == ends.len() {
        return 0;
    }
    let start = sequence::end_before(ends, first);
    let mut before = ends[first];
    out_starts[0] = start;
    out_ends[0] = before;
    let mut last = Open {
        at: 0,
        start,
        end: before,
        inside: true,
    };
    for r in first + 1..ends.len() {
        let end = ends[r];
        let value = values[r];
        let passes = num::holds(code, value, number);
        last = next_range(last, passes, before, end);
        let at = last.at;
        let last_start = last.start;
        let last_end = last.end;
        out_starts[at] = last_start;
        out_ends[at] = last_end;
        before = end;
    }
    last.at + 1
}
