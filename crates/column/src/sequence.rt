// Reading the flat lists of a sequence, and any list.
ghost use Rattle.std.specs.Prelude.{◌≡◌, ◌-◌, length, get_or};
ghost use Rattle.column.specs.Lists.{part};
ghost use Rattle.column.specs.Runs.{end_before, to_nat, length_of_ends};

// A number that is not negative, as a count; a negative one counts as 0.
pub fn to_nat(x: i64) -> usize
    ensures { result ≡ to_nat x }
{
    if x < 0 { 0 } else { x as usize }
}

// The length of a sequence: its last end, or 0.
pub fn length(ends: &[i64]) -> i64
    ensures { result ≡ length_of_ends ends.now }
{
    ends.last().copied().unwrap_or(0)
}

// How many sequences lie flat: one less than the offsets.
pub fn count(offsets: &[usize]) -> usize
    ensures { result ≡ length offsets.now - 1 }
{
    offsets.len().saturating_sub(1)
}

// The entry at an index, or another value past the last.
pub fn entry_or<T: Copy>(entries: &[T], index: usize, otherwise: T) -> T
    ensures { result ≡ get_or entries.now index otherwise }
{
    entries.get(index).copied().unwrap_or(otherwise)
}

// The end before an index, 0 before the first.
pub fn end_before(ends: &[i64], index: usize) -> i64
    ensures { result ≡ end_before ends.now index }
{
    if index == 0 {
        0
    } else {
        entry_or(ends, index - 1, 0)
    }
}

// The entries from one index up to another, as far as there are any.
pub fn part<T>(entries: &[T], from: usize, to: usize) -> &[T]
    ensures { result.now ≡ part from to entries.now }
{
    let n = entries.len();
    if n < from {
        return &entries[n..];
    }
    if to < from {
        return &entries[from..from];
    }
    if n < to {
        return &entries[from..];
    }
    &entries[from..to]
}
