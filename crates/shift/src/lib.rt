#![tactic(auto)]

pub mod inner;

ghost use Rattle.column.specs.Paper.{WritesRuns};
ghost use Rattle.column.specs.Runs.{sequence};
ghost use Rattle.shift.specs.Calls as calls;

use column::error::Refusal;

// A sequence moved by a distance, towards higher positions where it is positive, and merged; the fill stands where no value was moved to.
pub fn shift(
    ends: &[i64],
    values: &[i64],
    distance: i64,
    fill: i64,
    out_ends: &mut [i64],
    out_values: &mut [i64],
) -> Result<usize, Refusal>
    ensures { WritesRuns (calls.shift (sequence ends.now values.now) distance fill) out_ends out_values result }
{
    questions::ask_sequence_into(
        ends,
        values,
        ends.len() + 1,
        out_ends.len(),
        out_values.len(),
    )?;
    let n = inner::shift(ends, values, distance, fill, out_ends, out_values);
    Ok(n)
}
