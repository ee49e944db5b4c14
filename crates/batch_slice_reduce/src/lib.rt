#![tactic(auto)]

// slice_reduce of a batch, by intervals each with a key. A batch is handed in as its keys, its offsets, and its ends and values laid flat.
pub mod inner;

ghost use Rattle.std.specs.Prelude.{[], ◌∷◌, ◌≡◌};
ghost use Rattle.column.specs.Asking.{shown_asked};
ghost use Rattle.reduce.specs.Calls.{WritesReductions};
ghost use Rattle.batch.specs.Batch.{batch};
ghost use Rattle.batch_slice_reduce.specs.Calls as calls;

use column::error::Refusal;

#[tactic(auto, using(column::proofs::FirstNo::ends_at, column::proofs::FirstNo::goes_on, column::proofs::FirstNo::alone), unfolding(crate::specs::Calls::slice_reduce_asked))]
fn slice_reduce_asks(
    keys: &[u32],
    offsets: &[usize],
    ends: &[i64],
    values: &[i64],
    get_keys: &[u32],
    starts: &[i64],
    stops: &[i64],
    code: u8,
    out_kinds: usize,
    out_bits: usize,
) -> Result<(), Refusal>
    ensures { shown_asked result ≡ calls.slice_reduce_asked
        (batch keys.now offsets.now ends.now values.now) get_keys.now starts.now stops.now code (out_kinds ∷ out_bits ∷ []) }
{
    questions::ask_code(0, 2, code)?;
    batch::ask_lengths(keys, offsets, ends, values)?;
    questions::ask_lengths(7, get_keys.len(), starts.len())?;
    questions::ask_lengths(8, starts.len(), stops.len())?;
    batch::ask_content(keys, offsets, ends, values)?;
    questions::ask_intervals(starts, stops)?;
    questions::ask_both(starts.len(), out_kinds, out_bits)
}

// The reductions of the slices of intervals, each of a key's sequence.
pub fn slice_reduce(
    keys: &[u32],
    offsets: &[usize],
    ends: &[i64],
    values: &[i64],
    get_keys: &[u32],
    starts: &[i64],
    stops: &[i64],
    code: u8,
    ddof: i64,
    out_kinds: &mut [u8],
    out_bits: &mut [u64],
) -> Result<usize, Refusal>
    ensures { WritesReductions
        (calls.slice_reduce (batch keys.now offsets.now ends.now values.now) get_keys.now starts.now stops.now code ddof)
        out_kinds out_bits result }
{
    slice_reduce_asks(
        keys,
        offsets,
        ends,
        values,
        get_keys,
        starts,
        stops,
        code,
        out_kinds.len(),
        out_bits.len(),
    )?;
    let order = batch_keys::inner::quick_order(keys);
    Ok(inner::slice_reduce(
        keys, offsets, ends, values, order, get_keys, starts, stops, code, ddof, out_kinds,
        out_bits,
    ))
}
