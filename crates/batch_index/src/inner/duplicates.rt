// The first key that is given twice. The keys are taken a block at a time: each key of a block, and each after it, is looked up in a table
// of the block.
ghost use Rattle.std.specs.Prelude.{◌+◌, ◌≤◌, ◌<◌, ◌^◌, ◌≡◌, length};
ghost use Rattle.batch_index.specs.Workers.{part, looked_up, Sized, FirstDouble, NextLimit, CheckedBlock, PassedRest, PassedBlock};

use crate::inner::scan_from;
use crate::inner::table::{enter, fill_filter, look_up};

// Fewer keys than these are compared one with another; filling a table would take longer.
const FEW: usize = 128;

// How many keys a block has at most: half as many as its table has slots.
const BLOCK: usize = 6144;

// The limit, after the key at i was found at `at`. If that is not its own position, its next one is looked for.
fn limit_after(keys: &[u32], i: usize, at: usize, limit: usize) -> usize
    requires { i < length keys.now }
    ensures { (at ≤ i → result ≡ limit) × (i < at → NextLimit keys.now i limit result) }
{
    if i < at {
        return num::smaller_count(scan_from(keys, i + 1, keys[i]), limit);
    }
    limit
}

// The limit after each key of the block has been entered into its table. A key that is not found at its own position is found before it, and
// is then a duplicate, or is looked for among the keys after it.
fn enter_block(
    keys: &[u32],
    from: usize,
    to: usize,
    limit: usize,
    table: &mut [u16],
    filter: &[u64],
) -> usize
    requires { (from ≤ to) × (to ≤ from + 2 ^ 16) × (to ≤ length keys.now) × (limit ≤ length keys.now) × Sized table.old filter.now }
    ensures { CheckedBlock (looked_up table.new filter.now (part from to keys.now)) keys.now from to limit result }
{
    let mut limit = limit;
    for i in from..to {
        let at = from + enter(&mut *table, filter, &keys[from..to], i - from);
        if at < i {
            return num::smaller_count(i, limit);
        }
        limit = limit_after(keys, i, at, limit);
    }
    limit
}

// The limit after each key from the block's end up to it has been looked up.
fn pass_rest(
    keys: &[u32],
    from: usize,
    to: usize,
    limit: usize,
    table: &[u16],
    filter: &[u64],
) -> usize
    requires { (from ≤ to) × (to ≤ length keys.now) × (limit ≤ length keys.now) × Sized table.now filter.now }
    ensures { PassedRest (looked_up table.now filter.now (part from to keys.now)) keys.now from to limit result }
{
    for i in to..limit {
        if look_up(table, filter, &keys[from..to], keys[i]) < to - from {
            return i;
        }
    }
    limit
}

// The lowest position below the limit of a key that stands before it too, in the block; or the limit.
fn pass_block(keys: &[u32], from: usize, to: usize, limit: usize) -> usize
    requires { (from ≤ to) × (to ≤ from + 2 ^ 16) × (to ≤ length keys.now) × (limit ≤ length keys.now) }
    ensures { PassedBlock keys.now from to limit result }
{
    let mut table = [0xFFFFu16; 12288];
    let mut filter = [0u64; 2048];
    fill_filter(&mut filter, &keys[from..to]);
    let entered = enter_block(keys, from, to, limit, &mut table, &filter);
    pass_rest(keys, from, to, entered, &table, &filter)
}

// The same of the last block, up to the limit. All bits of its filter are set.
fn pass_last(keys: &[u32], from: usize, limit: usize) -> usize
    requires { (from ≤ limit) × (limit ≤ from + 2 ^ 16) × (limit ≤ length keys.now) }
    ensures { PassedBlock keys.now from limit limit result }
{
    let mut table = [0xFFFFu16; 12288];
    let filter = [0xFFFF_FFFF_FFFF_FFFFu64; 1];
    enter_block(keys, from, limit, limit, &mut table, &filter)
}

// Of few keys: as no bit is set, each is looked for among those after it.
fn scan_each(keys: &[u32]) -> usize
    requires { length keys.now ≤ 2 ^ 16 }
    ensures { PassedBlock keys.now 0 (length keys.now) (length keys.now) result }
{
    let mut table = [0xFFFFu16; 1];
    let filter = [0u64; 1];
    enter_block(keys, 0, keys.len(), keys.len(), &mut table, &filter)
}

// The size of blocks, all of about the same.
fn block_size(keys: usize) -> usize
    ensures { (0 < result) × (result ≤ 6144) }
{
    keys / (keys / BLOCK + 1) + 1
}

// The lowest position of a key that stands before it too, or how many keys there are.
pub fn first_duplicate(keys: &[u32]) -> usize
    ensures { FirstDouble keys.now result }
{
    if keys.len() < FEW {
        return scan_each(keys);
    }
    let size = block_size(keys.len());
    let mut limit = keys.len();
    for from in (0..keys.len()).step_by(size) {
        if limit <= from {
            return limit;
        }
        if limit - from <= size {
            return pass_last(keys, from, limit);
        }
        limit = pass_block(keys, from, from + size, limit);
    }
    limit
}
