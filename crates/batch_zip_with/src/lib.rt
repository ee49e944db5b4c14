#![tactic(auto)]

// zip_with of two batches.
pub mod inner;

ghost use Rattle.std.specs.Prelude.{true, ◌≡◌, length, None};
ghost use Rattle.column.specs.Asking.{shown_asked};
ghost use Rattle.batch_keys.specs.Workers.{block_size};
ghost use Rattle.batch.specs.Batch.{batch, WritesBatch};
ghost use Rattle.batch.specs.Workers.{KnownKeys};
ghost use Rattle.batch_zip_with.specs.Calls as calls;

use batch::inner::lookup::{Lookup, lookup_of};
use column::answer::RleBatch;
use column::error::Refusal;

#[tactic(auto, using(plan::proofs::InTurn::in_turn), unfolding(crate::specs::Calls::zip_asked))]
fn zip_asks(
    a_keys: &[u32],
    a_offsets: &[usize],
    a_ends: &[i64],
    a_values: &[i64],
    b_keys: &[u32],
    b_offsets: &[usize],
    b_ends: &[i64],
    b_values: &[i64],
    how: u8,
    code: u8,
) -> Result<(), Refusal>
    ensures { shown_asked result ≡ calls.zip_asked
        (batch a_keys.now a_offsets.now a_ends.now a_values.now) (batch b_keys.now b_offsets.now b_ends.now b_values.now) how code }
{
    questions::ask_code(0, 3, how)?;
    questions::ask_code(0, 9, code)?;
    batch::two::ask_batches(
        a_keys, a_offsets, a_ends, a_values, b_keys, b_offsets, b_ends, b_values,
    )
}

// With what is known of the keys, and a block for the positions of those that are indexed.
fn zip_with_by(
    a_keys: &[u32],
    a_offsets: &[usize],
    a_ends: &[i64],
    a_values: &[i64],
    b_keys: &[u32],
    b_offsets: &[usize],
    b_ends: &[i64],
    b_values: &[i64],
    how: u8,
    fill_a: Option<i64>,
    fill_b: Option<i64>,
    code: u8,
    lookup: Lookup,
    block: &mut [u32],
    out_keys: &mut [u32],
    out_offsets: &mut [usize],
    out_ends: &mut [i64],
    out_values: &mut [i64],
) -> Result<RleBatch, Refusal>
    requires { (calls.zip_asked (batch a_keys.now a_offsets.now a_ends.now a_values.now)
        (batch b_keys.now b_offsets.now b_ends.now b_values.now) how code ≡ None)
        × KnownKeys a_keys.now b_keys.now lookup × (lookup.indexed ≡ true → length block.old ≡ block_size) }
    ensures { WritesBatch
        (calls.zip_with (batch a_keys.now a_offsets.now a_ends.now a_values.now) (batch b_keys.now b_offsets.now b_ends.now b_values.now)
        how fill_a fill_b code) out_keys out_offsets out_ends out_values result }
{
    let pairs = inner::ask_pairs(
        a_keys,
        a_offsets,
        a_ends,
        a_values,
        b_keys,
        b_offsets,
        b_ends,
        b_values,
        lookup,
        how,
        fill_a,
        fill_b,
        &mut *block,
    );
    if let Err(refusal) = pairs.asked {
        return Err(refusal);
    }
    let keys = a_keys.len() + b_keys.len();
    batch::ask_room(
        keys,
        keys + 1,
        pairs.runs,
        out_keys.len(),
        out_offsets.len(),
        out_ends.len(),
        out_values.len(),
    )?;
    let joined = inner::zip_pairs(
        a_keys,
        a_offsets,
        a_ends,
        a_values,
        b_keys,
        b_offsets,
        b_ends,
        b_values,
        lookup,
        how,
        fill_a.unwrap_or(0),
        fill_b.unwrap_or(0),
        code,
        block,
        out_keys,
        out_offsets,
        out_ends,
        out_values,
    );
    Ok(joined)
}

// The sequences of two batches combined, key by key.
pub fn zip_with(
    a_keys: &[u32],
    a_offsets: &[usize],
    a_ends: &[i64],
    a_values: &[i64],
    b_keys: &[u32],
    b_offsets: &[usize],
    b_ends: &[i64],
    b_values: &[i64],
    how: u8,
    fill_a: Option<i64>,
    fill_b: Option<i64>,
    code: u8,
    out_keys: &mut [u32],
    out_offsets: &mut [usize],
    out_ends: &mut [i64],
    out_values: &mut [i64],
) -> Result<RleBatch, Refusal>
    ensures { WritesBatch
        (calls.zip_with (batch a_keys.now a_offsets.now a_ends.now a_values.now) (batch b_keys.now b_offsets.now b_ends.now b_values.now)
        how fill_a fill_b code) out_keys out_offsets out_ends out_values result }
{
    zip_asks(
        a_keys, a_offsets, a_ends, a_values, b_keys, b_offsets, b_ends, b_values, how, code,
    )?;
    let lookup = lookup_of(a_keys, b_keys);
    if lookup.indexed {
        let mut block = [0u32; batch_keys::inner::BLOCK];
        return zip_with_by(
            a_keys,
            a_offsets,
            a_ends,
            a_values,
            b_keys,
            b_offsets,
            b_ends,
            b_values,
            how,
            fill_a,
            fill_b,
            code,
            lookup,
            &mut block,
            out_keys,
            out_offsets,
            out_ends,
            out_values,
        );
    }
    let mut block = [0u32; 1];
    zip_with_by(
        a_keys,
        a_offsets,
        a_ends,
        a_values,
        b_keys,
        b_offsets,
        b_ends,
        b_values,
        how,
        fill_a,
        fill_b,
        code,
        lookup,
        &mut block,
        out_keys,
        out_offsets,
        out_ends,
        out_values,
    )
}
