#![tactic(auto)]

pub mod inner;

ghost use Rattle.std.specs.Prelude.{[], ◌∷◌, ◌≡◌, length};
ghost use Rattle.column.specs.Asking.{shown_asked};
ghost use Rattle.column.specs.Paper.{outcome_of, WritesRuns};
ghost use Rattle.column.specs.Runs.{sequence};
ghost use Rattle.from_runs.specs.Calls as calls;

use column::error::Refusal;

#[tactic(auto, using(column::proofs::FirstNo::ends_at, column::proofs::FirstNo::goes_on, column::proofs::FirstNo::alone), unfolding(crate::specs::Calls::from_runs_asked))]
fn from_runs_asks(
    runs: &[i64],
    values: &[i64],
    out_ends: usize,
    out_values: usize,
) -> Result<(), Refusal>
    ensures { shown_asked result ≡ calls.from_runs_asked runs.now values.now (out_ends ∷ out_values ∷ []) }
{
    questions::ask_lengths(1, runs.len(), values.len())?;
    questions::ask_runs(runs)?;
    questions::ask_both(runs.len(), out_ends, out_values)
}

// A sequence from the lengths of its runs and a value for each; runs of 0 are skipped.
pub fn from_runs(
    runs: &[i64],
    values: &[i64],
    out_ends: &mut [i64],
    out_values: &mut [i64],
) -> Result<usize, Refusal>
    ensures { WritesRuns (calls.from_runs runs.now values.now) out_ends out_values result }
{
    from_runs_asks(runs, values, out_ends.len(), out_values.len())?;
    let n = inner::from_runs(runs, values, out_ends, out_values);
    Ok(n)
}

// Whether ends and values are a sequence.
pub fn from_ends(ends: &[i64], values: &[i64]) -> Result<(), Refusal>
    ensures { outcome_of result ≡ calls.from_ends (sequence ends.now values.now) }
{
    questions::ask_sequence(ends, values)?;
    Ok(())
}

// A sequence that shows one value, `length` times.
pub fn repeat(
    value: i64,
    length: i64,
    out_ends: &mut [i64],
    out_values: &mut [i64],
) -> Result<usize, Refusal>
    ensures { WritesRuns (calls.repeat value length) out_ends out_values result }
{
    let runs = [length];
    let values = [value];
    from_runs(&runs, &values, out_ends, out_values)
}
