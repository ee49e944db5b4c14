#![tactic(auto)]

// plan_many.
pub mod inner;

ghost use Rattle.std.specs.Prelude.{◌-◌, ◌<◌, ◌^◌, [], ◌∷◌, ◌≡◌};
ghost use Rattle.column.specs.Asking.{shown_asked};
ghost use Rattle.column.specs.Flat.{flat};
ghost use Rattle.many.specs.Calls.{WritesPlanMany};
ghost use Rattle.many.specs.Calls as calls;

use column::error::Refusal;
use column::sequence;

// How many segments `plan_many` wrote, and how many indexes, one for each column of each.
#[derive(Clone, Copy)]
pub struct Planned {
    pub segments: usize,
    pub indexes: usize,
}

// No slice is so long that the greatest usize, which stands for what is larger, would not be too much for it.
#[tactic(auto, using(plan::proofs::InTurn::in_turn, plan::proofs::InTurn::in_rooms), unfolding(crate::specs::Calls::plan_many_asked))]
fn plan_many_asks(
    offsets: &[usize],
    ends: &[i64],
    values: &[i64],
    out_ends: usize,
    out_idx: usize,
) -> Result<(), Refusal>
    ensures { out_idx < 2 ^ 64 - 1 → shown_asked result ≡ calls.plan_many_asked (flat offsets.now ends.now values.now) (out_ends ∷ out_idx ∷ []) }
{
    let k = sequence::count(offsets);
    let indexes = num::saturating_mul(ends.len(), k);
    questions::ask_flat(offsets, ends, values)?;
    questions::ask_columns(rle::Rle::MAX_COLUMNS, k)?;
    questions::ask_room(0, ends.len(), out_ends)?;
    questions::ask_room(1, indexes, out_idx)
}

// The segments of many columns: where each ends, and for each column the run that covers it, or the column's run count where it is
// spent.
pub fn plan_many(
    offsets: &[usize],
    ends: &[i64],
    values: &[i64],
    out_ends: &mut [i64],
    out_idx: &mut [usize],
) -> Result<Planned, Refusal>
    ensures { WritesPlanMany (calls.plan_many (flat offsets.now ends.now values.now)) out_ends out_idx result }
{
    plan_many_asks(offsets, ends, values, out_ends.len(), out_idx.len())?;
    let planned = inner::plan_many(offsets, ends, values, out_ends, out_idx);
    Ok(planned)
}
