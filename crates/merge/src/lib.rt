#![tactic(auto)]

pub mod inner;

ghost use Rattle.column.specs.Paper.{WritesRuns};
ghost use Rattle.column.specs.Runs.{sequence};
ghost use Rattle.merge.specs.Calls as calls;

use column::error::Refusal;

// A sequence with neighbouring runs of one value made one run.
pub fn merged(
    ends: &[i64],
    values: &[i64],
    out_ends: &mut [i64],
    out_values: &mut [i64],
) -> Result<usize, Refusal>
    ensures { WritesRuns (calls.merged (sequence ends.now values.now)) out_ends out_values result }
{
    questions::ask_sequence_into(ends, values, ends.len(), out_ends.len(), out_values.len())?;
    let n = inner::merged(ends, values, out_ends, out_values);
    Ok(n)
}

// The same: the Rust's has its result in place of the sequence.
pub fn merge(
    ends: &[i64],
    values: &[i64],
    out_ends: &mut [i64],
    out_values: &mut [i64],
) -> Result<usize, Refusal>
    ensures { WritesRuns (calls.merged (sequence ends.now values.now)) out_ends out_values result }
{
    merged(ends, values, out_ends, out_values)
}
