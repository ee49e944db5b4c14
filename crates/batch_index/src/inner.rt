// Searches for keys. Each finds the lowest position of a key, or how many keys there are.
pub mod duplicates;
pub mod links;
pub mod table;
pub mod wanted;

ghost use Rattle.std.specs.Prelude.{◌+◌, ◌≤◌, ◌<◌, ◌^◌, true, cond, ◌≡◌, eqb, length};
ghost use Rattle.batch_index.specs.Calls.{lowest};
ghost use Rattle.batch_index.specs.Workers.{Others, Skipped, NextPosition};

// As many keys are compared at once.
const STRIDE: usize = 32;

// One more if the keys differ.
fn count_if_other(count: u32, x: u32, y: u32) -> u32
    requires { count + 1 < 2 ^ 32 }
    ensures { result ≡ cond (eqb x y) count (count + 1) }
{
    if x == y { count } else { count + 1 }
}

// Whether the keys from `from` up to `to` are all known to be others. It counts, as that becomes vector instructions.
fn all_others(keys: &[u32], from: usize, to: usize, key: u32) -> bool
    requires { (from ≤ to) × (to ≤ length keys.now) × (to ≤ from + 32) }
    ensures { result ≡ true → Others key keys.now from to }
{
    let mut count: u32 = 0;
    for i in from..to {
        count = count_if_other(count, keys[i], key);
    }
    widened(count) == to - from
}

// How far from `from` on all keys are known to be others, a stride at a time.
fn skip_others(keys: &[u32], from: usize, key: u32) -> usize
    requires { from ≤ length keys.now }
    ensures { Skipped key keys.now from result }
{
    let mut i = from;
    while keys.len() - i >= STRIDE {
        let to = i + STRIDE;
        if !all_others(keys, i, to, key) {
            return i;
        }
        i = to;
    }
    i
}

// The lowest position of a key from `from` on, or how many keys there are.
pub fn scan_from(keys: &[u32], from: usize, key: u32) -> usize
    requires { from ≤ length keys.now }
    ensures { NextPosition key keys.now from result }
{
    for i in skip_others(keys, from, key)..keys.len() {
        if keys[i] == key {
            return i;
        }
    }
    keys.len()
}

pub fn scan(keys: &[u32], key: u32) -> usize
    ensures { result ≡ lowest key keys.now }
{
    scan_from(keys, 0, key)
}

pub fn widened(held: u32) -> usize
    ensures { result ≡ held }
{
    held as usize
}
