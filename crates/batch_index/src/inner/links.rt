// Links from each position of a key to the next one, of the keys that begin in a block. An entry is a position and the next entry of its
// key; an entry that is no entry is a number not below their capacity.
ghost use Rattle.std.specs.Prelude.{◌+◌, ◌-◌, ◌≤◌, ◌<◌, ◌^◌, true, false, ◌≡◌, length, get_or};
ghost use Rattle.batch_index.specs.Workers.{part, looked_up, Sized, NextPosition, CheckedEnd, Cleared, Marks, Block, LinkRoom, LinkLent};
ghost use Rattle.batch_index.specs.Workers.{Chains, Listed, Linked, LinkedFrom, LinkedAt};

use crate::inner::table::{fill, fill_filter, look_up};
use crate::inner::{table, widened};

// How many positions a block has at most.
pub const BLOCK: usize = 2048;

// How many entries there may be.
pub const CAPACITY: usize = 2048;

const NONE: u16 = 0xFFFF;

// Stands for the entry of a key that begins before the block.
const DROPPED: u16 = 0xFFFE;

// The keys that begin from `from` up to `to` have `count` entries. If it is not known to be so, `linked` is false.
#[derive(Clone, Copy)]
pub struct Links {
    pub linked: bool,
    from: usize,
    to: usize,
    count: usize,
}

pub fn unlinked(from: usize, to: usize) -> Links
    ensures { (result.linked ≡ false) × (result.from ≡ from) × (result.to ≡ to) }
{
    Links {
        linked: false,
        from,
        to,
        count: 0,
    }
}

// A position, and its entry if it is linked.
#[derive(Clone, Copy)]
pub struct Member {
    pub at: usize,
    pub entry: usize,
}

// Up to where each key is found at its own position or before it.
fn checked_end(keys: &[u32], from: usize, to: usize, table: &[u16], filter: &[u64]) -> usize
    requires { (from ≤ to) × (to ≤ length keys.now) × Sized table.now filter.now }
    ensures { CheckedEnd (looked_up table.now filter.now (part from to keys.now)) keys.now from to result }
{
    for i in from..to {
        if i - from < look_up(table, filter, &keys[from..to], keys[i]) {
            return i;
        }
    }
    to
}

fn clear(first: &mut [u16], size: usize)
    requires { size ≤ length first.old }
    ensures { Cleared size first.new }
{
    first[..size].fill(NONE);
}

// Marks the keys of the block that begin before it.
fn drop_begun(
    keys: &[u32],
    from: usize,
    to: usize,
    size: usize,
    table: &[u16],
    filter: &[u64],
    first: &mut [u16],
)
    requires { (from ≤ to) × (to ≤ length keys.now) × Sized table.now filter.now × (size ≤ length first.old)
        × Cleared size first.old }
    ensures { Marks (looked_up table.now filter.now (part from to keys.now)) keys.now size from first.new }
{
    for i in 0..from {
        let w = look_up(table, filter, &keys[from..to], keys[i]);
        if w < size {
            first[w] = DROPPED;
        }
    }
}

// Links the positions of each key that begins in the block, from the last position on. It fails if there are too many.
fn link_keys(
    keys: &[u32],
    from: usize,
    to: usize,
    end: usize,
    table: &[u16],
    filter: &[u64],
    first: &mut [u16],
    next: &mut [u16],
    positions: &mut [u32],
) -> Links
    requires { LinkRoom keys.now first.old next.old positions.old × Block keys.now from to × Sized table.now filter.now
        × CheckedEnd (looked_up table.now filter.now (part from to keys.now)) keys.now from to end
        × Marks (looked_up table.now filter.now (part from to keys.now)) keys.now (end - from) from first.old }
    ensures { LinkedFrom from keys.now first.new next.new positions.new result }
{
    let mut count: usize = 0;
    for i in (from..keys.len()).rev() {
        let w = look_up(table, filter, &keys[from..to], keys[i]);
        if w < end - from {
            let head = first[w];
            if head != DROPPED {
                if count == CAPACITY {
                    return unlinked(from, end);
                }
                positions[count] = i as u32;
                next[count] = head;
                first[w] = count as u16;
                count += 1;
            }
        }
    }
    Links {
        linked: from < end,
        from,
        to: end,
        count,
    }
}

// Links the keys from `from` up to `to`, or fewer of them, or none.
fn link_block(
    keys: &[u32],
    from: usize,
    to: usize,
    first: &mut [u16],
    next: &mut [u16],
    positions: &mut [u32],
) -> Links
    requires { LinkRoom keys.now first.old next.old positions.old × Block keys.now from to }
    ensures { LinkedFrom from keys.now first.new next.new positions.new result }
{
    let mut table = [0xFFFFu16; 4096];
    let mut filter = [0u64; 1024];
    fill_filter(&mut filter, &keys[from..to]);
    fill(&mut table, &filter, &keys[from..to]);
    let end = checked_end(keys, from, to, &table, &filter);
    clear(&mut *first, end - from);
    drop_begun(keys, from, to, end - from, &table, &filter, &mut *first);
    link_keys(keys, from, to, end, &table, &filter, first, next, positions)
}

// Links as many as can be of the next keys, at most `size`. A key alone that has too many positions is not linked.
fn link_most(
    keys: &[u32],
    from: usize,
    size: usize,
    first: &mut [u16],
    next: &mut [u16],
    positions: &mut [u32],
) -> Links
    requires { LinkRoom keys.now first.old next.old positions.old × Block keys.now from (from + size) × (from < length keys.now) }
    ensures { LinkedAt from keys.now first.new next.new positions.new result }
{
    let mut size = size;
    while 0 < size {
        let links = link_block(
            keys,
            from,
            from + size,
            &mut *first,
            &mut *next,
            &mut *positions,
        );
        if links.linked {
            return links;
        }
        size /= 2;
    }
    unlinked(from, from + 1)
}

// How many keys are linked next: so many that there is room for their positions, if they have as many as the last ones.
fn next_size(links: Links) -> usize
    requires { (links.from ≤ links.to) × (links.to < 2 ^ 63) }
    ensures { result ≤ 2048 }
{
    let size = links.to - links.from;
    if size == 0 {
        return BLOCK;
    }
    if links.count <= CAPACITY / 2 {
        return num::smaller_count(2 * size, BLOCK);
    }
    num::smaller_count(size, BLOCK)
}

// The links of a block with the position i: those there are, or others. None is linked if nothing is lent for that.
pub fn link(
    keys: &[u32],
    links: Links,
    i: usize,
    first: &mut [u16],
    next: &mut [u16],
    positions: &mut [u32],
) -> Links
    requires { Linked keys.now first.old next.old positions.old links × LinkLent keys.now first.old next.old positions.old
        × (links.from ≤ i) × (i < length keys.now) }
    ensures { LinkedFrom i keys.now first.new next.new positions.new result }
{
    if i < links.to {
        return links;
    }
    if first.len() < BLOCK {
        return unlinked(0, 0);
    }
    let size = num::smaller_count(next_size(links), keys.len() - i);
    link_most(keys, i, size, first, next, positions)
}

// The first entry of the key at i, if the block is linked.
pub fn first_entry(links: Links, first: &[u16], i: usize) -> usize
    requires { (links.from ≤ i) × (links.linked ≡ true → i < links.from + length first.now) }
    ensures { links.linked ≡ true → result ≡ get_or first.now (i - links.from) 0 }
{
    if links.linked {
        return table::widened(first[i - links.from]);
    }
    CAPACITY
}

// The next member after an entry.
pub fn next_entry(
    keys: &[u32],
    links: Links,
    next: &[u16],
    positions: &[u32],
    entry: usize,
) -> Member
    requires { Chains keys.now next.now positions.now links × (links.linked ≡ true) × (entry < links.count) × (entry < 2048) }
    ensures { Listed keys.now positions.now links result
        × NextPosition (get_or keys.now (get_or positions.now entry 0) 0) keys.now (get_or positions.now entry 0 + 1) result.at }
{
    let entry = table::widened(next[entry]);
    if entry < CAPACITY {
        return Member {
            at: widened(positions[entry]),
            entry,
        };
    }
    Member {
        at: keys.len(),
        entry,
    }
}
