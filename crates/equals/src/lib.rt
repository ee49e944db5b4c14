#![tactic(auto)]

pub mod inner;

ghost use Rattle.std.specs.Prelude.{◌≡◌};
ghost use Rattle.column.specs.Asking.{shown_asked};
ghost use Rattle.column.specs.Runs.{sequence};
ghost use Rattle.column.specs.Paper.{outcome_of};
ghost use Rattle.equals.specs.Calls as calls;

use column::error::Refusal;

#[tactic(auto, using(plan::proofs::InTurn::in_turn), unfolding(crate::specs::Calls::equals_asked, column::specs::Questions::paired))]
fn equals_asks(
    a_ends: &[i64],
    a_values: &[i64],
    b_ends: &[i64],
    b_values: &[i64],
) -> Result<(), Refusal>
    ensures { shown_asked result ≡ calls.equals_asked (sequence a_ends.now a_values.now) (sequence b_ends.now b_values.now) }
{
    questions::ask_lengths(3, a_ends.len(), a_values.len())?;
    questions::ask_lengths(3, b_ends.len(), b_values.len())?;
    questions::ask_ends(a_ends)?;
    questions::ask_ends(b_ends)
}

// Whether two sequences show the same values at every position, however their runs are split.
pub fn equals(
    a_ends: &[i64],
    a_values: &[i64],
    b_ends: &[i64],
    b_values: &[i64],
) -> Result<bool, Refusal>
    ensures { outcome_of result ≡ calls.equals (sequence a_ends.now a_values.now) (sequence b_ends.now b_values.now) }
{
    equals_asks(a_ends, a_values, b_ends, b_values)?;
    Ok(inner::equals(a_ends, a_values, b_ends, b_values))
}
