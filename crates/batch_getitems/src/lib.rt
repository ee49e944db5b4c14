#![tactic(auto)]

// getitems of a batch, by intervals each with a key. A batch is handed in as its keys, its offsets, and its ends and values laid flat.
pub mod inner;

ghost use Rattle.std.specs.Prelude.{◌≡◌};
ghost use Rattle.column.specs.Asking.{shown_asked};
ghost use Rattle.column.specs.Flat.{WritesFlat};
ghost use Rattle.batch.specs.Batch.{batch};
ghost use Rattle.batch_getitems.specs.Calls as calls;

use column::answer::RleBatch;
use column::error::Refusal;

// The batch's own questions, and at the place of 9 what 8 of 2, 9 and what 7 of 2.
#[tactic(auto, using(column::proofs::FirstNo::ends_at, column::proofs::FirstNo::goes_on, column::proofs::FirstNo::alone), unfolding(crate::specs::Calls::getitems_asked))]
fn getitems_asks(
    keys: &[u32],
    offsets: &[usize],
    ends: &[i64],
    values: &[i64],
    get_keys: &[u32],
    starts: &[i64],
    stops: &[i64],
) -> Result<(), Refusal>
    ensures { shown_asked result ≡ calls.getitems_asked (batch keys.now offsets.now ends.now values.now) get_keys.now starts.now stops.now }
{
    batch::ask_batch(keys, offsets, ends, values)?;
    questions::ask_lengths(8, starts.len(), stops.len())?;
    questions::ask_intervals(starts, stops)?;
    questions::ask_lengths(7, get_keys.len(), starts.len())
}

// The slices of intervals, each of a key's sequence, laid flat.
pub fn getitems(
    keys: &[u32],
    offsets: &[usize],
    ends: &[i64],
    values: &[i64],
    get_keys: &[u32],
    starts: &[i64],
    stops: &[i64],
    out_offsets: &mut [usize],
    out_ends: &mut [i64],
    out_values: &mut [i64],
) -> Result<RleBatch, Refusal>
    ensures { WritesFlat (calls.getitems (batch keys.now offsets.now ends.now values.now) get_keys.now starts.now stops.now)
        out_offsets out_ends out_values result }
{
    getitems_asks(keys, offsets, ends, values, get_keys, starts, stops)?;
    let order = batch_keys::inner::quick_order(keys);
    let needed = inner::count_items(keys, offsets, ends, values, order, get_keys, starts, stops);
    questions::ask_flat_room(
        starts.len() + 1,
        needed,
        out_offsets.len(),
        out_ends.len(),
        out_values.len(),
    )?;
    let runs = inner::getitems(
        keys,
        offsets,
        ends,
        values,
        order,
        get_keys,
        starts,
        stops,
        out_offsets,
        out_ends,
        out_values,
    );
    Ok(RleBatch {
        keys: starts.len(),
        runs,
    })
}
