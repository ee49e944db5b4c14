#![tactic(auto)]

pub mod inner;

ghost use Rattle.std.specs.Prelude.{[], ◌∷◌, ◌≡◌};
ghost use Rattle.column.specs.Asking.{shown_asked};
ghost use Rattle.column.specs.Paper.{WritesEntries};
ghost use Rattle.merge_plan.specs.Calls.{WritesGroups};
ghost use Rattle.merge_plan.specs.Calls as calls;

use column::error::Refusal;

fn merge_plan_asks(
    ends: &[i64],
    mask: &[u8],
    out_ends: usize,
    out_offsets: usize,
) -> Result<(), Refusal>
    ensures { shown_asked result ≡ calls.merge_plan_asked ends.now mask.now (out_ends ∷ out_offsets ∷ []) }
{
    questions::ask_mask(mask)?;
    questions::ask_mask_length(mask, ends)?;
    questions::ask_ends(ends)?;
    questions::ask_room(0, ends.len(), out_ends)?;
    questions::ask_room(1, ends.len() + 1, out_offsets)
}

// The groups that a mask makes: the end of each, and which runs it has.
pub fn merge_plan(
    ends: &[i64],
    mask: &[u8],
    out_ends: &mut [i64],
    out_offsets: &mut [usize],
) -> Result<usize, Refusal>
    ensures { WritesGroups (calls.merge_plan ends.now mask.now) out_ends out_offsets result }
{
    merge_plan_asks(ends, mask, out_ends.len(), out_offsets.len())?;
    let n = inner::merge_plan(ends, mask, out_ends, out_offsets);
    Ok(n)
}

fn group_ids_asks(offsets: &[usize], out_ids: usize) -> Result<(), Refusal>
    ensures { shown_asked result ≡ calls.group_ids_asked offsets.now (out_ids ∷ []) }
{
    let needed = questions::last_offset(offsets);
    questions::ask_offsets_rise(offsets)?;
    questions::ask_room(0, needed, out_ids)
}

// The group of each run.
pub fn group_ids(offsets: &[usize], out_ids: &mut [usize]) -> Result<usize, Refusal>
    ensures { WritesEntries (calls.group_ids offsets.now) out_ids result }
{
    group_ids_asks(offsets, out_ids.len())?;
    let n = inner::group_ids(offsets, out_ids);
    Ok(n)
}
