// A table of the positions of the keys of a block, with a filter of bits in front of it. A key's first mixed number gives its bit, each
// further one a slot. A slot holds a position, or is empty: it then holds a number that is no position.
//
// Whatever a table and a filter hold, a position that is found for a key is one of its positions, and equal keys find the same. So a search
// needs no more than to know which keys find their own position, and it looks for the others in another way.
ghost use Rattle.std.specs.Prelude.{◌<◌, ◌^◌, ◌≡◌, length, get_or};
ghost use Rattle.batch_index.specs.Workers.{mixed, place_of, in_filter, probed, looked_up, Sized, Put, Entered};

// So many slots are probed for a key.
const PROBES: usize = 32;

// Odd, so that different numbers stay different.
const FACTOR: u64 = 2_891_336_453;

fn mixed(x: u32) -> u32
    ensures { result ≡ mixed x }
{
    ((x as u64) * FACTOR % 0x1_0000_0000) as u32
}

// The place among n that a mixed number has.
fn place(x: u32, n: usize) -> usize
    requires { (0 < n) × (n < 2 ^ 32) }
    ensures { (result ≡ place_of n x) × (result < n) }
{
    (x as usize) * n / 0x1_0000_0000
}

pub fn widened(slot: u16) -> usize
    ensures { result ≡ slot }
{
    slot as usize
}

// Whether the bit of a mixed number is set.
fn is_set(filter: &[u64], x: u32) -> bool
    requires { (0 < length filter.now) × (length filter.now < 2 ^ 26) }
    ensures { result ≡ in_filter filter.now x }
{
    let bit = place(x, filter.len() * 64);
    let word = filter[bit / 64];
    (word >> (bit % 64)) % 2 == 1
}

// Sets the bit of a mixed number.
fn set(filter: &mut [u64], x: u32)
    requires { (0 < length filter.old) × (length filter.old < 2 ^ 26) }
{
    let bit = place(x, filter.len() * 64);
    filter[bit / 64] |= 1 << (bit % 64);
}

// The position that the slots of a key give, up to an empty one; or how many keys there are.
fn probe(table: &[u16], keys: &[u32], key: u32, from: u32) -> usize
    requires { (0 < length table.now) × (length table.now < 2 ^ 32) }
    ensures { result ≡ probed 32 table.now keys.now key from }
{
    let mut x = from;
    for _d in 0..PROBES {
        x = mixed(x);
        let at = widened(table[place(x, table.len())]);
        if keys.len() <= at {
            return keys.len();
        }
        if keys[at] == key {
            return at;
        }
    }
    keys.len()
}

// The position that is found for a key, or how many keys there are.
pub fn look_up(table: &[u16], filter: &[u64], keys: &[u32], key: u32) -> usize
    requires { Sized table.now filter.now }
    ensures { result ≡ looked_up table.now filter.now keys.now key }
{
    let x = mixed(key);
    if is_set(filter, x) {
        return probe(table, keys, key, x);
    }
    keys.len()
}

// Puts the position of the key at i into the first empty slot of the key, unless the key is met before. Where it is found then, or how many
// keys there are.
fn put(table: &mut [u16], keys: &[u32], i: usize, from: u32) -> usize
    requires { (0 < length table.old) × (length table.old < 2 ^ 32) × (i < length keys.now) × (i < 2 ^ 16) }
    ensures { Put keys.now (get_or keys.now i 0) from table.old table.new result }
{
    let key = keys[i];
    let mut x = from;
    for _d in 0..PROBES {
        x = mixed(x);
        let slot = place(x, table.len());
        let at = widened(table[slot]);
        if keys.len() <= at {
            table[slot] = i as u16;
            return i;
        }
        if keys[at] == key {
            return at;
        }
    }
    keys.len()
}

// The same, if the bit of the key is set.
pub fn enter(table: &mut [u16], filter: &[u64], keys: &[u32], i: usize) -> usize
    requires { Sized table.old filter.now × (i < length keys.now) × (i < 2 ^ 16) }
    ensures { Entered filter.now keys.now i table.old table.new result }
{
    let x = mixed(keys[i]);
    if is_set(filter, x) {
        return put(table, keys, i, x);
    }
    keys.len()
}

// Sets the bits of keys.
pub fn fill_filter(filter: &mut [u64], keys: &[u32])
    requires { (0 < length filter.old) × (length filter.old < 2 ^ 26) }
{
    for key in keys {
        set(&mut *filter, mixed(*key));
    }
}

// Enters keys.
pub fn fill(table: &mut [u16], filter: &[u64], keys: &[u32])
    requires { Sized table.old filter.now × (length keys.now < 2 ^ 16) }
{
    for i in 0..keys.len() {
        enter(&mut *table, filter, keys, i);
    }
}
