// Workers that assume what the calls have asked.
ghost use Rattle.std.specs.Prelude.{◌-◌, ◌≤◌, ◌<◌, ◌≡◌, pos, length, get_or};
ghost use Rattle.column.specs.Runs.{sequence, Fills};
ghost use Rattle.rle.specs.Calls.{pushed, extended};
ghost use Rattle.rle.specs.Workers.{Pushable, Extendable};

use column::inner::Writer;
use column::sequence;

// One more run after the used entries, none of length 0.
pub fn push_run(ends: &mut [i64], values: &mut [i64], used: usize, run: i64, value: i64) -> usize
    requires { Pushable ends.old values.old used run }
    ensures { Fills (pushed (sequence ends.old values.old) used run value) ends values result }
{
    let present = sequence::length(sequence::part(ends, 0, used));
    from_runs::inner::put_run(ends, values, used, run, present + run, value)
}

// The last of the used entries, as a writer that goes on after it.
fn last_run(values: &[i64], used: usize, value: i64) -> Writer
    requires { used ≤ length values.now }
    ensures { (result.at ≡ used - 1) × (used ≡ 0 → result.last ≡ value) × (0 < used → result.last ≡ get_or values.now (used - 1) (pos 0)) }
{
    if used == 0 {
        Writer { at: 0, last: value }
    } else {
        let last = values[used - 1];
        Writer { at: used - 1, last }
    }
}

// The used entries up to a length.
pub fn extend_to(
    ends: &mut [i64],
    values: &mut [i64],
    used: usize,
    length: i64,
    value: i64,
) -> usize
    requires { Extendable ends.old values.old used length }
    ensures { Fills (extended (sequence ends.old values.old) used length value) ends values result }
{
    let present = sequence::length(sequence::part(ends, 0, used));
    if length == present {
        return used;
    }
    let writer = last_run(values, used, value);
    let next = column::inner::push_merged(writer, ends, values, length, value);
    next.at + 1
}
