#![tactic(auto)]

// concat of two batches.
pub mod inner;

ghost use Rattle.std.specs.Prelude.{true, ◌≡◌, length, None};
ghost use Rattle.batch_keys.specs.Workers.{block_size};
ghost use Rattle.batch.specs.Batch.{batch, WritesBatch, both_valid};
ghost use Rattle.batch.specs.Workers.{KnownKeys};
ghost use Rattle.batch_concat.specs.Calls as calls;

use batch::inner::lookup::Lookup;
use column::answer::RleBatch;
use column::error::Refusal;

// 7 and 12, and then the writing, with a block for the positions of keys in the other batch, where they are indexed.
fn concat_by(
    a_keys: &[u32],
    a_offsets: &[usize],
    a_ends: &[i64],
    a_values: &[i64],
    b_keys: &[u32],
    b_offsets: &[usize],
    b_ends: &[i64],
    b_values: &[i64],
    lookup: Lookup,
    block: &mut [u32],
    out_keys: &mut [u32],
    out_offsets: &mut [usize],
    out_ends: &mut [i64],
    out_values: &mut [i64],
) -> Result<RleBatch, Refusal>
    requires { (both_valid (batch a_keys.now a_offsets.now a_ends.now a_values.now)
        (batch b_keys.now b_offsets.now b_ends.now b_values.now) ≡ None)
        × KnownKeys a_keys.now b_keys.now lookup × (lookup.indexed ≡ true → length block.old ≡ block_size) }
    ensures { WritesBatch
        (calls.concat (batch a_keys.now a_offsets.now a_ends.now a_values.now) (batch b_keys.now b_offsets.now b_ends.now b_values.now))
        out_keys out_offsets out_ends out_values result }
{
    let keys = a_keys.len() + b_keys.len();
    inner::ask_joined(
        a_keys,
        a_offsets,
        a_ends,
        a_values,
        b_keys,
        b_offsets,
        b_ends,
        b_values,
        lookup,
        &mut *block,
    )?;
    batch::ask_room(
        keys,
        keys + 1,
        a_ends.len() + b_ends.len(),
        out_keys.len(),
        out_offsets.len(),
        out_ends.len(),
        out_values.len(),
    )?;
    let joined = inner::concat_keys(
        a_keys,
        a_offsets,
        a_ends,
        a_values,
        b_keys,
        b_offsets,
        b_ends,
        b_values,
        lookup,
        block,
        out_keys,
        out_offsets,
        out_ends,
        out_values,
    );
    Ok(joined)
}

// The sequences of two batches joined end to end, key by key, and merged.
pub fn concat(
    a_keys: &[u32],
    a_offsets: &[usize],
    a_ends: &[i64],
    a_values: &[i64],
    b_keys: &[u32],
    b_offsets: &[usize],
    b_ends: &[i64],
    b_values: &[i64],
    out_keys: &mut [u32],
    out_offsets: &mut [usize],
    out_ends: &mut [i64],
    out_values: &mut [i64],
) -> Result<RleBatch, Refusal>
    ensures { WritesBatch
        (calls.concat (batch a_keys.now a_offsets.now a_ends.now a_values.now) (batch b_keys.now b_offsets.now b_ends.now b_values.now))
        out_keys out_offsets out_ends out_values result }
{
    batch::two::ask_batches(
        a_keys, a_offsets, a_ends, a_values, b_keys, b_offsets, b_ends, b_values,
    )?;
    let lookup = batch::inner::lookup::lookup_of(a_keys, b_keys);
    if lookup.indexed {
        let mut block = [0u32; batch_keys::inner::BLOCK];
        return concat_by(
            a_keys,
            a_offsets,
            a_ends,
            a_values,
            b_keys,
            b_offsets,
            b_ends,
            b_values,
            lookup,
            &mut block,
            out_keys,
            out_offsets,
            out_ends,
            out_values,
        );
    }
    let mut block = [0u32; 1];
    concat_by(
        a_keys,
        a_offsets,
        a_ends,
        a_values,
        b_keys,
        b_offsets,
        b_ends,
        b_values,
        lookup,
        &mut block,
        out_keys,
        out_offsets,
        out_ends,
        out_values,
    )
}
