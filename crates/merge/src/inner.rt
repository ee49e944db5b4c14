// A worker that assumes what the calls have asked.
ghost use Rattle.std.specs.Prelude.{◌≤◌, ◌≡◌, length, None};
ghost use Rattle.column.specs.Questions.{ends_valid};
ghost use Rattle.column.specs.Runs.{runs_of, dense, encode, Fills};

use column::inner::Writer;
use column::sequence;

// The runs of a sequence, merged.
pub fn merged(ends: &[i64], values: &[i64], out_ends: &mut [i64], out_values: &mut [i64]) -> usize
    requires { (ends_valid ends.now ≡ None) × (length ends.now ≡ length values.now)
        × (length ends.now ≤ length out_ends.old) × (length ends.now ≤ length out_values.old) }
    ensures { Fills (encode (dense (runs_of ends.now values.now))) out_ends out_values result }
{
    if sequence::length(ends) <= 0 {
        return 0;
    }
    let first = values[0];
    let writer = Writer { at: 0, last: first };
    let end = column::inner::append_merged(writer, ends, values, 0, 0, out_ends, out_values);
    end.at + 1
}
