#![tactic(auto)]

pub mod inner;

ghost use Rattle.std.specs.Prelude.{[], ◌∷◌, ◌≡◌};
ghost use Rattle.column.specs.Asking.{shown_asked};
ghost use Rattle.column.specs.Paper.{WritesRuns, WritesEntries};
ghost use Rattle.column.specs.Runs.{sequence};
ghost use Rattle.dense.specs.Calls as calls;

use column::error::Refusal;
use column::sequence;

// The merged sequence that shows the values.
pub fn from_dense(
    values: &[i64],
    out_ends: &mut [i64],
    out_values: &mut [i64],
) -> Result<usize, Refusal>
    ensures { WritesRuns (calls.from_dense values.now) out_ends out_values result }
{
    questions::ask_both(values.len(), out_ends.len(), out_values.len())?;
    let n = inner::from_dense(values, out_ends, out_values);
    Ok(n)
}

fn to_dense_asks(ends: &[i64], values: &[i64], out: usize) -> Result<(), Refusal>
    ensures { shown_asked result ≡ calls.to_dense_asked (sequence ends.now values.now) (out ∷ []) }
{
    let needed = sequence::to_nat(sequence::length(ends));
    questions::ask_sequence(ends, values)?;
    questions::ask_room(0, needed, out)
}

// The values that a sequence shows, one for each position.
pub fn to_dense(ends: &[i64], values: &[i64], out: &mut [i64]) -> Result<usize, Refusal>
    ensures { WritesEntries (calls.to_dense (sequence ends.now values.now)) out result }
{
    to_dense_asks(ends, values, out.len())?;
    let n = inner::to_dense(ends, values, out);
    Ok(n)
}
