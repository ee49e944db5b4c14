// Searches for a key. Each finds its lowest position, or how many keys there are.
ghost use Rattle.std.specs.Prelude.{◌+◌, ◌<◌, ◌^◌, true, ◌&&◌, cond, ◌≡◌, eqb, ltb, length, get_or};
ghost use Rattle.batch_index.specs.Calls.{lowest};
ghost use Rattle.batch_keys.specs.Workers.{ascends, Known, block_size, BlockEnd, BlockFound, Kept};

use crate::Order;
use batch_index::inner::widened;

// Whether the key stands at a position.
fn stands_at(keys: &[u32], position: usize, key: u32) -> bool
    ensures { result ≡ ltb position (length keys.now) && eqb (get_or keys.now position 0) key }
{
    position < keys.len() && keys[position] == key
}

// Where the search goes on: `step` further if the key there is below the one looked for.
fn low_after(low: usize, step: usize, below: bool) -> usize
    requires { low + step < 2 ^ 63 }
    ensures { result ≡ cond below (low + step) low }
{
    if below { low + step } else { low }
}

// By halving, among keys that ascend. Of `size` keys the half is left either way.
fn halve(keys: &[u32], key: u32) -> usize
    requires { ascends keys.now ≡ true }
    ensures { result ≡ lowest key keys.now }
{
    let mut low: usize = 0;
    let mut size = keys.len();
    while 0 < size {
        let step = size - size / 2;
        let below = keys[low + step - 1] < key;
        low = low_after(low, step, below);
        size /= 2;
    }
    if stands_at(keys, low, key) {
        low
    } else {
        keys.len()
    }
}

// What is known of keys by looking at each and the one before it.
pub fn quick_order(keys: &[u32]) -> Order
    ensures { Known result keys.now }
{
    if crate::ascends(keys) {
        Order::Ascending
    } else {
        Order::Unknown
    }
}

// What is known of keys by looking at all of them.
pub fn order_of(keys: &[u32]) -> Order
    ensures { Known result keys.now }
{
    if crate::ascends(keys) {
        return Order::Ascending;
    }
    if batch_index::inner::duplicates::first_duplicate(keys) == keys.len() {
        return Order::Distinct;
    }
    Order::Unknown
}

// As what is known of the keys allows. Where none is given twice, the key is looked for at `near` first.
pub fn find(keys: &[u32], order: Order, near: usize, key: u32) -> usize
    requires { Known order keys.now }
    ensures { result ≡ lowest key keys.now }
{
    match order {
        Order::Ascending => {
            if stands_at(keys, near, key) {
                return near;
            }
            halve(keys, key)
        }
        Order::Distinct => {
            if stands_at(keys, near, key) {
                return near;
            }
            batch_index::inner::scan(keys, key)
        }
        Order::Unknown => batch_index::inner::scan(keys, key),
    }
}

// How many wanted keys are looked for at once.
pub const BLOCK: usize = 4096;

// Whether a table of the keys is taken to be quicker than a search for each wanted one. The bounds are reckoned.
pub fn index_pays(order: Order, keys: usize, wanted: usize) -> bool
    ensures { result ≡ true → keys < 2 ^ 32 }
{
    if keys < 256 {
        return false;
    }
    if wanted < 64 {
        return false;
    }
    match order {
        Order::Ascending => {
            if wanted < keys / 4 {
                return false;
            }
            keys < 0x2_0000
        }
        Order::Distinct | Order::Unknown => keys < 0x1_0000_0000,
    }
}

// Where the block at i ends.
fn block_end(i: usize, wanted: usize) -> usize
    requires { i < wanted }
    ensures { BlockEnd i wanted result }
{
    if wanted - i < BLOCK {
        wanted
    } else {
        i + BLOCK
    }
}

// Finds the wanted keys of the block at i; the lowest position of the first.
fn find_block(keys: &[u32], wanted: &[u32], i: usize, block: &mut [u32]) -> usize
    requires { (length keys.now < 2 ^ 32) × (i < length wanted.now) × (length block.old ≡ block_size) }
    ensures { BlockFound keys.now wanted.now i block.new result }
{
    let end = block_end(i, wanted.len());
    batch_index::inner::wanted::find_all(keys, &wanted[i..end], &mut *block);
    widened(block[0])
}

// The lowest position of the wanted key at i, those before it having been looked for. With an index, a block of them is found at once and kept.
pub fn find_next(
    keys: &[u32],
    order: Order,
    near: usize,
    wanted: &[u32],
    i: usize,
    indexed: bool,
    block: &mut [u32],
) -> usize
    requires { Known order keys.now × (i < length wanted.now) × Kept keys.now wanted.now indexed block.old i }
    ensures { (result ≡ lowest (get_or wanted.now i 0) keys.now) × Kept keys.now wanted.now indexed block.new (i + 1) }
{
    if indexed {
        let slot = i % BLOCK;
        if slot == 0 {
            return find_block(keys, wanted, i, block);
        }
        return widened(block[slot]);
    }
    find(keys, order, near, wanted[i])
}
