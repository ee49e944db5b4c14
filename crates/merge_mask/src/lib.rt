#![tactic(auto)]

pub mod inner;

ghost use Rattle.std.specs.Prelude.{[], ◌∷◌, ◌≡◌};
ghost use Rattle.column.specs.Asking.{shown_asked};
ghost use Rattle.column.specs.Paper.{WritesRuns};
ghost use Rattle.column.specs.Runs.{sequence};
ghost use Rattle.merge_mask.specs.Calls as calls;

use column::error::Refusal;

fn merge_mask_asks(
    ends: &[i64],
    values: &[i64],
    mask: &[u8],
    keep: u8,
    out_ends: usize,
    out_values: usize,
) -> Result<(), Refusal>
    ensures { shown_asked result ≡ calls.merge_mask_asked (sequence ends.now values.now) mask.now keep (out_ends ∷ out_values ∷ []) }
{
    questions::ask_code(0, 1, keep)?;
    questions::ask_mask(mask)?;
    questions::ask_lengths(3, ends.len(), values.len())?;
    questions::ask_mask_length(mask, ends)?;
    questions::ask_ends(ends)?;
    questions::ask_both(ends.len(), out_ends, out_values)
}

// A run for each group that a mask makes, with the value of its first or of its last run.
pub fn merge_mask(
    ends: &[i64],
    values: &[i64],
    mask: &[u8],
    keep: u8,
    out_ends: &mut [i64],
    out_values: &mut [i64],
) -> Result<usize, Refusal>
    ensures { WritesRuns (calls.merge_mask (sequence ends.now values.now) mask.now keep) out_ends out_values result }
{
    merge_mask_asks(ends, values, mask, keep, out_ends.len(), out_values.len())?;
    let n = inner::merge_mask(ends, values, mask, keep, out_ends, out_values);
    Ok(n)
}

fn merge_by_asks(
    ends: &[i64],
    values: &[i64],
    code: u8,
    out_ends: usize,
    out_values: usize,
) -> Result<(), Refusal>
    ensures { shown_asked result ≡ calls.merge_by_asked (sequence ends.now values.now) code (out_ends ∷ out_values ∷ []) }
{
    questions::ask_code(7, 8, code)?;
    questions::ask_sequence_into(ends, values, ends.len(), out_ends, out_values)
}

// A run for each group of neighbours of which the operation holds, with the value of its first run.
pub fn merge_by(
    ends: &[i64],
    values: &[i64],
    code: u8,
    out_ends: &mut [i64],
    out_values: &mut [i64],
) -> Result<usize, Refusal>
    ensures { WritesRuns (calls.merge_by (sequence ends.now values.now) code) out_ends out_values result }
{
    merge_by_asks(ends, values, code, out_ends.len(), out_values.len())?;
    let n = inner::merge_by(ends, values, code, out_ends, out_values);
    Ok(n)
}
