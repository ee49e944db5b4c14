// Searches for the positions of a block of intervals, step by step beside each other, so that none waits for the memory of another.
ghost use Rattle.std.specs.Prelude.{◌+◌, ◌≤◌, ◌<◌, ◌/◌, ◌^◌, ◌≡◌, pos, length, get_or, None};
ghost use Rattle.column.specs.Questions.{ends_valid};
ghost use Rattle.getitems.specs.Workers.{block_size, sought, found, Begun, Halvings, Searched, Kept};

use column::sequence;

// How many are looked for at once: `block_size`.
pub const BLOCK: usize = 16;

// What is looked for: the position as clamped to the sequence, or the one before it.
fn place(ends: &[i64], position: i64, back: usize) -> usize
    ensures { (result ≡ sought ends.now back position) × (result < 2 ^ 63) }
{
    let length = sequence::to_nat(sequence::length(ends));
    num::smaller_count(sequence::to_nat(position), length).saturating_sub(back)
}

// No end is passed yet.
fn start(
    ends: &[i64],
    positions: &[i64],
    from: usize,
    back: usize,
    places: &mut [usize],
    lows: &mut [usize],
)
    requires { (length places.old ≡ block_size) × (length lows.old ≡ block_size) × (from < 2 ^ 63) }
    ensures { Begun ends.now positions.now from back places.new lows.new }
{
    for k in 0..BLOCK {
        let position = sequence::entry_or(positions, from + k, 0);
        places[k] = place(ends, position, back);
        lows[k] = 0;
    }
}

// A step of each.
fn halve(ends: &[i64], size: usize, places: &[usize], lows: &mut [usize])
    requires { Halvings ends.now places.now lows.old size × (0 < size) }
    ensures { Halvings ends.now places.now lows.new (size / 2) }
{
    for k in 0..BLOCK {
        let low = lows[k];
        let place = places[k];
        lows[k] = slice::inner::half(ends, low, size, place);
    }
}

// The searches of the block at `from`.
fn search(ends: &[i64], positions: &[i64], from: usize, back: usize, block: &mut [usize])
    requires { (length block.old ≡ block_size) × (from < 2 ^ 63) }
    ensures { Searched ends.now positions.now back from block.new }
{
    let mut places = [0usize; BLOCK];
    start(ends, positions, from, back, &mut places, &mut *block);
    let mut size = ends.len();
    while 0 < size {
        halve(ends, size, &places, &mut *block);
        size /= 2;
    }
}

// The first end above the position at i, or above the one before it; those before i have been looked for.
pub fn find_next(
    ends: &[i64],
    positions: &[i64],
    i: usize,
    back: usize,
    block: &mut [usize],
) -> usize
    requires { (i < length positions.now) × Kept ends.now positions.now back block.old i }
    ensures { (result ≤ length ends.now) ×
        (ends_valid ends.now ≡ None → result ≡ found ends.now back (get_or positions.now i (pos 0)))
        × Kept ends.now positions.now back block.new (i + 1) }
{
    let slot = i % BLOCK;
    if slot == 0 {
        search(ends, positions, i, back, &mut *block);
        return block[0];
    }
    block[slot]
}
