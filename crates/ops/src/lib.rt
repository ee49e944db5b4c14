#![tactic(auto)]

pub mod inner;

ghost use Rattle.std.specs.Prelude.{[], ◌∷◌, ◌≡◌};
ghost use Rattle.column.specs.Asking.{shown_asked};
ghost use Rattle.column.specs.Paper.{WritesRuns};
ghost use Rattle.column.specs.Runs.{sequence};
ghost use Rattle.ops.specs.Calls as calls;

use column::error::Refusal;
use column::sequence;

#[tactic(auto, using(plan::proofs::InTurn::in_turn), unfolding(crate::specs::Calls::zip_asked, column::specs::Questions::paired))]
fn zip_asks(
    a_ends: &[i64],
    a_values: &[i64],
    b_ends: &[i64],
    b_values: &[i64],
    fill_a: Option<i64>,
    fill_b: Option<i64>,
    code: u8,
    out_ends: usize,
    out_values: usize,
) -> Result<(), Refusal>
    ensures { shown_asked result ≡ calls.zip_asked
        (sequence a_ends.now a_values.now) (sequence b_ends.now b_values.now) fill_a fill_b code (out_ends ∷ out_values ∷ []) }
{
    let needed = a_ends.len() + b_ends.len();
    let left = sequence::length(a_ends);
    let right = sequence::length(b_ends);
    questions::ask_code(0, 9, code)?;
    questions::ask_lengths(3, a_ends.len(), a_values.len())?;
    questions::ask_lengths(3, b_ends.len(), b_values.len())?;
    questions::ask_ends(a_ends)?;
    questions::ask_ends(b_ends)?;
    questions::ask_fills(left, right, fill_a, fill_b)?;
    questions::ask_both(needed, out_ends, out_values)
}

// Two columns combined position by position, merged.
pub fn zip_with(
    a_ends: &[i64],
    a_values: &[i64],
    b_ends: &[i64],
    b_values: &[i64],
    fill_a: Option<i64>,
    fill_b: Option<i64>,
    code: u8,
    out_ends: &mut [i64],
    out_values: &mut [i64],
) -> Result<usize, Refusal>
    ensures { WritesRuns
        (calls.zip_with (sequence a_ends.now a_values.now) (sequence b_ends.now b_values.now) fill_a fill_b code)
        out_ends out_values result }
{
    zip_asks(
        a_ends,
        a_values,
        b_ends,
        b_values,
        fill_a,
        fill_b,
        code,
        out_ends.len(),
        out_values.len(),
    )?;
    let n = inner::zip_with(
        a_ends,
        a_values,
        b_ends,
        b_values,
        fill_a.unwrap_or(0),
        fill_b.unwrap_or(0),
        code,
        out_ends,
        out_values,
    );
    Ok(n)
}

// Two columns combined, with a run for each of their segments, not merged.
pub fn zip_with_raw(
    a_ends: &[i64],
    a_values: &[i64],
    b_ends: &[i64],
    b_values: &[i64],
    fill_a: Option<i64>,
    fill_b: Option<i64>,
    code: u8,
    out_ends: &mut [i64],
    out_values: &mut [i64],
) -> Result<usize, Refusal>
    ensures { WritesRuns
        (calls.zip_with_raw (sequence a_ends.now a_values.now) (sequence b_ends.now b_values.now) fill_a fill_b code)
        out_ends out_values result }
{
    zip_asks(
        a_ends,
        a_values,
        b_ends,
        b_values,
        fill_a,
        fill_b,
        code,
        out_ends.len(),
        out_values.len(),
    )?;
    let n = inner::zip_with_raw(
        a_ends,
        a_values,
        b_ends,
        b_values,
        fill_a.unwrap_or(0),
        fill_b.unwrap_or(0),
        code,
        out_ends,
        out_values,
    );
    Ok(n)
}
