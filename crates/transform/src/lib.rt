#![tactic(auto)]

pub mod inner;

ghost use Rattle.std.specs.Prelude.{[], ◌∷◌, map, ◌≡◌};
ghost use Rattle.num.specs.Numbers.{saturated};
ghost use Rattle.column.specs.Asking.{shown_asked};
ghost use Rattle.column.specs.Flat.{flat};
ghost use Rattle.column.specs.Lists.{total, parts};
ghost use Rattle.column.specs.Paper.{WritesRuns};
ghost use Rattle.column.specs.Runs.{to_nat, length_of_ends, sequence};
ghost use Rattle.transform.specs.Calls as calls;

use column::error::Refusal;
use column::sequence;

// The lengths of all sequences together, saturating at usize::MAX.
fn total_length(offsets: &[usize], ends: &[i64]) -> usize
    ensures { result ≡ saturated (total (map (λ es. to_nat (length_of_ends es)) (parts offsets.now ends.now))) }
{
    let mut total: usize = 0;
    for k in 0..sequence::count(offsets) {
        let from = offsets[k];
        let to = offsets[k + 1];
        let length = sequence::length(sequence::part(ends, from, to));
        total = num::saturating_add(total, sequence::to_nat(length));
    }
    total
}

fn concat_asks(
    offsets: &[usize],
    ends: &[i64],
    values: &[i64],
    out_ends: usize,
    out_values: usize,
) -> Result<(), Refusal>
    ensures { shown_asked result ≡ calls.concat_asked (flat offsets.now ends.now values.now) (out_ends ∷ out_values ∷ []) }
{
    questions::ask_flat(offsets, ends, values)?;
    questions::ask_fits(total_length(offsets, ends))?;
    questions::ask_both(ends.len(), out_ends, out_values)
}

// Sequences joined end to end, merged.
pub fn concat(
    offsets: &[usize],
    ends: &[i64],
    values: &[i64],
    out_ends: &mut [i64],
    out_values: &mut [i64],
) -> Result<usize, Refusal>
    ensures { WritesRuns (calls.concat (flat offsets.now ends.now values.now)) out_ends out_values result }
{
    concat_asks(offsets, ends, values, out_ends.len(), out_values.len())?;
    let n = inner::concat(offsets, ends, values, out_ends, out_values);
    Ok(n)
}

// A sequence from its last position to its first, not merged.
pub fn reversed(
    ends: &[i64],
    values: &[i64],
    out_ends: &mut [i64],
    out_values: &mut [i64],
) -> Result<usize, Refusal>
    ensures { WritesRuns (calls.reversed (sequence ends.now values.now)) out_ends out_values result }
{
    questions::ask_sequence_into(ends, values, ends.len(), out_ends.len(), out_values.len())?;
    let n = inner::reversed(ends, values, out_ends, out_values);
    Ok(n)
}
