// The lists of a stored case, and what a call makes of it. Lists stand one after another in a row of numbers, each as its length and
// its entries.
pub mod agreement;
pub mod shape;

ghost use Rattle.std.specs.Prelude.{◌≡◌, ◌≤◌};
ghost use Rattle.text.specs.Counts.{Counts};

use column::sequence;
use ffi::{RlFill, RlRefusal};

// The most entries of a list or a buffer.
pub const LONGEST: usize = 16;

// The bits of a number; past the last all ones, which is no length of a list.
fn bits_at(row: &[i64], at: usize) -> u64 {
    sequence::entry_or(row, at, -1).cast_unsigned()
}

// The place after a list. It is past the row if the list runs past it or is too long.
fn list_end(row: &[i64], at: usize) -> usize {
    let n = bits_at(row, at);
    if n > LONGEST as u64 {
        usize::MAX
    } else {
        at.saturating_add(n as usize + 1)
    }
}

// The place after so many lists.
pub fn behind(row: &[i64], at: usize, lists: usize) -> usize {
    let mut end = at;
    for _ in 0..lists {
        end = list_end(row, end);
    }
    end
}

// The list at an index, or none.
pub fn list(lists: &[i64], index: usize) -> &[i64] {
    let start = behind(lists, 0, index);
    sequence::part(lists, start.saturating_add(1), list_end(lists, start))
}

// How many entries a list has.
fn count(lists: &[i64], index: usize) -> usize
    ensures { result ≤ 16 }
{
    list(lists, index).len().min(LONGEST)
}

// A number as a code or a byte; 255 for any that is none.
pub fn code(numbers: &[i64], at: usize) -> u8 {
    u8::try_from(bits_at(numbers, at)).unwrap_or(u8::MAX)
}

// A number as a key; the greatest key for any that is none.
pub fn key(numbers: &[i64], at: usize) -> u32 {
    u32::try_from(bits_at(numbers, at)).unwrap_or(u32::MAX)
}

// A number as a size or a place, by its bits.
pub fn size(numbers: &[i64], at: usize) -> usize {
    bits_at(numbers, at) as usize
}

// A number of a type that a call takes in lists.
pub trait Entry: Copy {
    // The number that a list has at an index; it has one for any index.
    fn at(list: &[i64], index: usize) -> Self;

    fn number(self) -> i64;
}

impl Entry for i64 {
    fn at(list: &[i64], index: usize) -> i64 {
        sequence::entry_or(list, index, 0)
    }

    fn number(self) -> i64 {
        self
    }
}

// An offset or an index.
impl Entry for usize {
    fn at(list: &[i64], index: usize) -> usize {
        size(list, index)
    }

    fn number(self) -> i64 {
        (self as u64).cast_signed()
    }
}

// A key.
impl Entry for u32 {
    fn at(list: &[i64], index: usize) -> u32 {
        key(list, index)
    }

    fn number(self) -> i64 {
        self as i64
    }
}

// A byte.
impl Entry for u8 {
    fn at(list: &[i64], index: usize) -> u8 {
        code(list, index)
    }

    fn number(self) -> i64 {
        self as i64
    }
}

// Bits.
impl Entry for u64 {
    fn at(list: &[i64], index: usize) -> u64 {
        bits_at(list, index)
    }

    fn number(self) -> i64 {
        self.cast_signed()
    }
}

// The entries of a list, at the front of a buffer.
pub fn entries<T: Entry>(lists: &[i64], index: usize) -> [T; LONGEST] {
    let list = list(lists, index);
    let mut entries = [T::at(list, 0); LONGEST];
    for (i, entry) in entries.iter_mut().enumerate() {
        *entry = T::at(list, i);
    }
    entries
}

// How much of the buffer is lent: as many entries as the list has.
pub fn lent<T: Copy>(lists: &[i64], index: usize, entries: [T; LONGEST]) -> usize
    ensures { Counts result entries }
{
    count(lists, index)
}

// A buffer as numbers.
pub fn numbers_in<T: Entry>(entries: [T; LONGEST]) -> [i64; LONGEST] {
    let mut numbers = [0i64; LONGEST];
    for i in 0..LONGEST {
        numbers[i] = entries[i].number();
    }
    numbers
}

pub fn fill_at(numbers: &[i64], at: usize) -> RlFill {
    RlFill {
        given: bits_at(numbers, at),
        value: sequence::entry_or(numbers, at.saturating_add(1), 0),
    }
}

// What a call answers, in numbers: the refusal's six and four counts, 0 where there are fewer. What it leaves in its buffers, in order.
#[derive(Clone, Copy)]
pub struct Outcome {
    pub numbers: [i64; 10],
    pub first: [i64; LONGEST],
    pub second: [i64; LONGEST],
    pub third: [i64; LONGEST],
    pub fourth: [i64; LONGEST],
    pub fifth: [i64; LONGEST],
    pub sixth: [i64; LONGEST],
}

// The refusal of an answer that has none.
pub fn no_refusal() -> RlRefusal {
    RlRefusal {
        number: 0,
        first: 0,
        second: 0,
        third: 0,
        in_key: 0,
        position: 0,
    }
}

pub fn numbers_of(
    refusal: RlRefusal,
    first: u64,
    second: u64,
    third: u64,
    fourth: u64,
) -> [i64; 10] {
    [
        refusal.number.cast_signed(),
        refusal.first.cast_signed(),
        refusal.second.cast_signed(),
        refusal.third.cast_signed(),
        refusal.in_key.cast_signed(),
        refusal.position.cast_signed(),
        first.cast_signed(),
        second.cast_signed(),
        third.cast_signed(),
        fourth.cast_signed(),
    ]
}

// The outcome of a call that lends three buffers or fewer.
pub fn outcome_of(
    numbers: [i64; 10],
    first: [i64; LONGEST],
    second: [i64; LONGEST],
    third: [i64; LONGEST],
) -> Outcome {
    let none = [0i64; LONGEST];
    Outcome {
        numbers,
        first,
        second,
        third,
        fourth: none,
        fifth: none,
        sixth: none,
    }
}

// Of one that lends none.
pub fn answered(refusal: RlRefusal, first: u64, second: u64, third: u64, fourth: u64) -> Outcome {
    let none = [0i64; LONGEST];
    outcome_of(
        numbers_of(refusal, first, second, third, fourth),
        none,
        none,
        none,
    )
}
