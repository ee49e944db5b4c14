// The walk over the segments of two columns, and what it is used for. The ends are valid.
ghost use Rattle.std.specs.Prelude.{◌+◌, ◌≤◌, ◌<◌, ◌^◌, min, cond, map, ◌≡◌, ltb, length, drop, None};
ghost use Rattle.column.specs.Questions.{ends_valid};
ghost use Rattle.column.specs.Runs.{to_nat};
ghost use Rattle.plan.specs.Workers.{spent, EndAt, stepped_cursor, Starts, Walkable, Walks, PlanFilled};
ghost use Rattle.plan.specs.Calls.{segments_of};

// No end is as large: it stands where a column is spent.
pub const SPENT: usize = usize::MAX;

// Where a walk stands in a column: its current run, or its run count where it is spent, and where that ends.
#[derive(Clone, Copy)]
pub struct Cursor {
    pub index: usize,
    pub end: usize,
}

// Where a walk stands in two columns.
#[derive(Clone, Copy)]
pub struct Segments {
    pub a: Cursor,
    pub b: Cursor,
}

// Where a segment ends, and where the walk stands after it.
#[derive(Clone, Copy)]
pub struct Segment {
    pub end: i64,
    pub next: Segments,
}

// Where the run at an index ends.
pub fn end_at(ends: &[i64], index: usize) -> usize
    requires { ends_valid ends.now ≡ None }
    ensures { EndAt (map to_nat (drop index ends.now)) result }
{
    if index < ends.len() {
        let end = ends[index];
        end as usize
    } else {
        SPENT
    }
}

// Where the current run ends after a segment; the next one ends at `next`.
fn end_after(end: usize, other: usize, next: usize) -> usize
    ensures { result ≡ cond (ltb other end) end next }
{
    if other < end { end } else { next }
}

// Behind a segment a column stays if the other's run ends before its own. By numbers, not branches: which run ends first cannot be
// predicted.
fn stepped(here: Cursor, other: usize, next: usize) -> Cursor
    requires { here.index + 1 < 2 ^ 64 }
    ensures { result ≡ stepped_cursor here other next }
{
    let index = here.index + 1 - usize::from(other < here.end);
    let end = end_after(here.end, other, next);
    Cursor { index, end }
}

impl Segments {
    pub fn start(a: &[i64], b: &[i64]) -> Segments
        requires { (ends_valid a.now ≡ None) × (ends_valid b.now ≡ None) }
        ensures { Starts a.now b.now result }
    {
        Segments {
            a: Cursor {
                index: 0,
                end: end_at(a, 0),
            },
            b: Cursor {
                index: 0,
                end: end_at(b, 0),
            },
        }
    }

    // Whether a column has runs left.
    pub fn more(self) -> bool
        ensures { result ≡ ltb (min self.a.end self.b.end) spent }
    {
        num::smaller_count(self.a.end, self.b.end) < SPENT
    }

    // The next segment. The ends after the current ones are read before it is known which are wanted, so that the next segment does not
    // wait for them.
    pub fn next(self, a: &[i64], b: &[i64]) -> Segment
        requires { Walkable a.now b.now self }
        ensures { Walks a.now b.now self result.end result.next }
    {
        let here_a = self.a;
        let here_b = self.b;
        let next_a = end_at(a, here_a.index + 1);
        let next_b = end_at(b, here_b.index + 1);
        let end = num::smaller_count(here_a.end, here_b.end);
        Segment {
            end: end as i64,
            next: Segments {
                a: stepped(here_a, here_b.end, next_a),
                b: stepped(here_b, here_a.end, next_b),
            },
        }
    }
}

pub fn plan(
    a: &[i64],
    b: &[i64],
    out_ends: &mut [i64],
    out_idx_a: &mut [usize],
    out_idx_b: &mut [usize],
) -> usize
    requires { (ends_valid a.now ≡ None) × (ends_valid b.now ≡ None) × (length a.now + length b.now ≤ length out_ends.old)
        × (length a.now + length b.now ≤ length out_idx_a.old) × (length a.now + length b.now ≤ length out_idx_b.old) }
    ensures { PlanFilled (segments_of a.now b.now)
        out_ends.old out_ends.new out_idx_a.old out_idx_a.new out_idx_b.old out_idx_b.new result }
{
    let mut n: usize = 0;
    let mut here = Segments::start(a, b);
    while here.more() {
        let segment = here.next(a, b);
        let end = segment.end;
        out_ends[n] = end;
        out_idx_a[n] = here.a.index;
        out_idx_b[n] = here.b.index;
        n += 1;
        here = segment.next;
    }
    n
}
