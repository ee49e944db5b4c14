// What a call leaves against what a row says.
use crate::inner::shape::Places;
use crate::inner::{LONGEST, Outcome, list};
use column::sequence;

// Whether a buffer, as long as it is lent, is left as the row says, after its first entries that are free.
fn left_as(lent: &[i64], left: &[i64], index: usize, free: usize, buffer: [i64; LONGEST]) -> bool {
    let expected = list(left, index);
    let n = expected.len();
    if list(lent, index).len() != n {
        return false;
    }
    sequence::part(&buffer, free, n) == sequence::part(expected, free, n)
}

fn buffers_left(lent: &[i64], left: &[i64], outcome: Outcome) -> bool {
    left_as(lent, left, 0, 0, outcome.first)
        && left_as(lent, left, 1, 0, outcome.second)
        && left_as(lent, left, 2, 0, outcome.third)
        && left_as(lent, left, 3, 0, outcome.fourth)
}

// An answer leaves the first entries of scratch free, two for each run of the batch.
fn free(lists: &[i64], numbers: [i64; 10]) -> usize {
    if numbers[0] == 0 {
        let runs = list(lists, 2).len();
        runs.saturating_mul(2)
    } else {
        0
    }
}

fn scratch_left(lent: &[i64], left: &[i64], free: usize, outcome: Outcome) -> bool {
    left_as(lent, left, 4, free, outcome.fifth) && left_as(lent, left, 5, free, outcome.sixth)
}

// The row says a refusal, and at least one count.
fn answers(row: &[i64], places: Places, numbers: [i64; 10]) -> bool {
    let expected = list(sequence::part(row, places.answer, places.end), 0);
    if expected.len() < 7 {
        return false;
    }
    sequence::part(&numbers, 0, expected.len()) == expected
}

// Whether the call answers what the row says, and leaves each buffer as it says.
pub fn agrees(row: &[i64], places: Places, outcome: Outcome) -> bool {
    let numbers = outcome.numbers;
    if !answers(row, places, numbers) {
        return false;
    }
    let lent = sequence::part(row, places.lent, places.left);
    let left = sequence::part(row, places.left, places.answer);
    if !buffers_left(lent, left, outcome) {
        return false;
    }
    let free = free(sequence::part(row, places.lists, places.lent), numbers);
    scratch_left(lent, left, free, outcome)
}
