// Where many wanted keys stand: all keys are looked up in a table of the wanted ones.
ghost use Rattle.std.specs.Prelude.{◌≤◌, ◌<◌, ◌^◌, ◌≡◌, length};
ghost use Rattle.batch_index.specs.Calls.{lowest};
ghost use Rattle.batch_index.specs.Workers.{looked_up, Sized, Unfound, FoundOnce, FoundAll};

use crate::inner::table::{fill, fill_filter, look_up};
use crate::inner::{scan, widened};

// Says of each wanted key that it stands nowhere.
fn clear(keys: &[u32], wanted: &[u32], found: &mut [u32])
    requires { (length keys.now < 2 ^ 32) × (length wanted.now ≤ length found.old) }
    ensures { Unfound keys.now wanted.now found.new }
{
    found[..wanted.len()].fill(keys.len() as u32);
}

// Notes the position of each key, from the last key to the first, for the wanted key that is found for it.
fn note_positions(keys: &[u32], wanted: &[u32], table: &[u16], filter: &[u64], found: &mut [u32])
    requires { (length keys.now < 2 ^ 32) × (length wanted.now ≤ length found.old) × Sized table.now filter.now
        × Unfound keys.now wanted.now found.old }
    ensures { FoundOnce (looked_up table.now filter.now wanted.now) keys.now wanted.now found.new }
{
    for i in (0..keys.len()).rev() {
        let w = look_up(table, filter, wanted, keys[i]);
        if w < wanted.len() {
            found[w] = i as u32;
        }
    }
}

// The position of a wanted key: what is noted for the one that is found for it, or else by a search for it alone.
fn position_of(
    keys: &[u32],
    wanted: &[u32],
    table: &[u16],
    filter: &[u64],
    found: &[u32],
    key: u32,
) -> usize
    requires { (length wanted.now ≤ length found.now) × Sized table.now filter.now
        × FoundOnce (looked_up table.now filter.now wanted.now) keys.now wanted.now found.now }
    ensures { result ≡ lowest key keys.now }
{
    let w = look_up(table, filter, wanted, key);
    if w < wanted.len() {
        return widened(found[w]);
    }
    scan(keys, key)
}

// Gives each wanted key its position: equal ones have the same.
fn share_positions(keys: &[u32], wanted: &[u32], table: &[u16], filter: &[u64], found: &mut [u32])
    requires { (length keys.now < 2 ^ 32) × (length wanted.now ≤ length found.old) × Sized table.now filter.now
        × FoundOnce (looked_up table.now filter.now wanted.now) keys.now wanted.now found.old }
    ensures { FoundAll keys.now wanted.now found.new }
{
    for i in 0..wanted.len() {
        let at = position_of(keys, wanted, table, filter, &*found, wanted[i]);
        found[i] = at as u32;
    }
}

// Finds each wanted key.
pub fn find_all(keys: &[u32], wanted: &[u32], found: &mut [u32])
    requires { (length keys.now < 2 ^ 32) × (length wanted.now ≤ 4096) × (length wanted.now ≤ length found.old) }
    ensures { FoundAll keys.now wanted.now found.new }
{
    let mut table = [0xFFFFu16; 8192];
    let mut filter = [0u64; 2048];
    fill_filter(&mut filter, wanted);
    fill(&mut table, &filter, wanted);
    clear(keys, wanted, &mut *found);
    note_positions(keys, wanted, &table, &filter, &mut *found);
    share_positions(keys, wanted, &table, &filter, found);
}
