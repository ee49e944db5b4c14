#![tactic(auto)]

// Calls that do the same to the sequence of each key. A batch is handed in as its keys, its offsets, and its ends and values laid flat.
pub mod inner;

ghost use Rattle.std.specs.Prelude.{◌+◌, ◌*◌, [], ◌∷◌, ◌≡◌, length};
ghost use Rattle.column.specs.Asking.{shown_asked};
ghost use Rattle.batch.specs.Batch.{WritesBatch, batch};
ghost use Rattle.batch_map_rles.specs.Calls as calls;
ghost use Rattle.batch_map_rles.specs.Workers.{more, map_each};

use crate::inner::Mapping;
use column::answer::RleBatch;
use column::error::Refusal;

// 2, 3, 4, and 12 for the same keys and so many runs.
fn each_asks(
    keys: &[u32],
    offsets: &[usize],
    ends: &[i64],
    values: &[i64],
    runs: usize,
    out_keys: usize,
    out_offsets: usize,
    out_ends: usize,
    out_values: usize,
) -> Result<(), Refusal>
    ensures { shown_asked
        result ≡ calls.each_asked (batch keys.now offsets.now ends.now values.now) runs (out_keys ∷ out_offsets ∷ out_ends ∷ out_values ∷ []) }
{
    batch::ask_batch(keys, offsets, ends, values)?;
    batch::ask_room(
        keys.len(),
        keys.len() + 1,
        runs,
        out_keys,
        out_offsets,
        out_ends,
        out_values,
    )
}

// So many runs are left at most.
fn most_runs(mapping: Mapping, keys: &[u32], ends: &[i64]) -> usize
    ensures { result ≡ length ends.now + more mapping * length keys.now }
{
    match mapping {
        Mapping::Shift { distance, fill } => ends.len() + keys.len(),
        Mapping::Reversed => ends.len(),
        Mapping::Slice { start, end } => ends.len(),
    }
}

// The same keys, each with what is made of its sequence.
fn map_each(
    keys: &[u32],
    offsets: &[usize],
    ends: &[i64],
    values: &[i64],
    mapping: Mapping,
    out_keys: &mut [u32],
    out_offsets: &mut [usize],
    out_ends: &mut [i64],
    out_values: &mut [i64],
) -> Result<RleBatch, Refusal>
    ensures { WritesBatch (map_each mapping (batch keys.now offsets.now ends.now values.now)) out_keys out_offsets out_ends out_values result }
{
    each_asks(
        keys,
        offsets,
        ends,
        values,
        most_runs(mapping, keys, ends),
        out_keys.len(),
        out_offsets.len(),
        out_ends.len(),
        out_values.len(),
    )?;
    let runs = inner::map_rles(
        keys,
        offsets,
        ends,
        values,
        mapping,
        out_keys,
        out_offsets,
        out_ends,
        out_values,
    );
    Ok(RleBatch {
        keys: keys.len(),
        runs,
    })
}

// The sequence of each key moved by a distance.
pub fn shift(
    keys: &[u32],
    offsets: &[usize],
    ends: &[i64],
    values: &[i64],
    distance: i64,
    fill: i64,
    out_keys: &mut [u32],
    out_offsets: &mut [usize],
    out_ends: &mut [i64],
    out_values: &mut [i64],
) -> Result<RleBatch, Refusal>
    ensures { WritesBatch (calls.shift (batch keys.now offsets.now ends.now values.now) distance fill) out_keys out_offsets out_ends out_values result }
{
    map_each(
        keys,
        offsets,
        ends,
        values,
        Mapping::Shift { distance, fill },
        out_keys,
        out_offsets,
        out_ends,
        out_values,
    )
}

// The sequence of each key from its last position to its first.
pub fn reversed(
    keys: &[u32],
    offsets: &[usize],
    ends: &[i64],
    values: &[i64],
    out_keys: &mut [u32],
    out_offsets: &mut [usize],
    out_ends: &mut [i64],
    out_values: &mut [i64],
) -> Result<RleBatch, Refusal>
    ensures { WritesBatch (calls.reversed (batch keys.now offsets.now ends.now values.now)) out_keys out_offsets out_ends out_values result }
{
    map_each(
        keys,
        offsets,
        ends,
        values,
        Mapping::Reversed,
        out_keys,
        out_offsets,
        out_ends,
        out_values,
    )
}

// The part of the sequence of each key from start up to end; every key is kept.
pub fn map_rles_slice(
    keys: &[u32],
    offsets: &[usize],
    ends: &[i64],
    values: &[i64],
    start: i64,
    end: i64,
    out_keys: &mut [u32],
    out_offsets: &mut [usize],
    out_ends: &mut [i64],
    out_values: &mut [i64],
) -> Result<RleBatch, Refusal>
    ensures { WritesBatch
        (calls.map_rles_slice (batch keys.now offsets.now ends.now values.now) start end) out_keys out_offsets out_ends out_values result }
{
    map_each(
        keys,
        offsets,
        ends,
        values,
        Mapping::Slice { start, end },
        out_keys,
        out_offsets,
        out_ends,
        out_values,
    )
}
