#![tactic(auto)]

pub mod inner;

ghost use Rattle.std.specs.Prelude.{[], ◌∷◌, ◌≡◌};
ghost use Rattle.column.specs.Asking.{shown_asked};
ghost use Rattle.plan.specs.Calls.{WritesPlan};
ghost use Rattle.plan.specs.Calls as calls;

use column::error::Refusal;

#[tactic(auto, using(crate::proofs::InTurn::in_turn, crate::proofs::InTurn::in_rooms), unfolding(crate::specs::Calls::plan_asked))]
fn plan_asks(
    a: &[i64],
    b: &[i64],
    out_ends: usize,
    out_idx_a: usize,
    out_idx_b: usize,
) -> Result<(), Refusal>
    ensures { shown_asked result ≡ calls.plan_asked a.now b.now (out_ends ∷ out_idx_a ∷ out_idx_b ∷ []) }
{
    let needed = a.len() + b.len();
    questions::ask_ends(a)?;
    questions::ask_ends(b)?;
    questions::ask_room(0, needed, out_ends)?;
    questions::ask_room(1, needed, out_idx_a)?;
    questions::ask_room(2, needed, out_idx_b)
}

// The segments of two columns, from their ends alone: where each ends, and the run of each column that covers it, or the column's run
// count where it is spent.
pub fn plan(
    a: &[i64],
    b: &[i64],
    out_ends: &mut [i64],
    out_idx_a: &mut [usize],
    out_idx_b: &mut [usize],
) -> Result<usize, Refusal>
    ensures { WritesPlan (calls.plan a.now b.now) out_ends out_idx_a out_idx_b result }
{
    plan_asks(a, b, out_ends.len(), out_idx_a.len(), out_idx_b.len())?;
    let n = inner::plan(a, b, out_ends, out_idx_a, out_idx_b);
    Ok(n)
}
