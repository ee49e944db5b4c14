// Where a row of numbers has what. It is a call's number, then its lists, its other arguments and the buffers that it lends, in front of
// each of these three how many they are; then each buffer after the call, and as one more list the answer: the six numbers of the refusal,
// and the counts. A list or a buffer is its length and its entries; a fill is two arguments: whether it is given, and its value.
use crate::inner;
use crate::inner::LONGEST;

// Where the lists start, the other arguments, the buffers, what the call must leave in the buffers, and what it must answer; and the end.
#[derive(Clone, Copy)]
pub struct Places {
    pub lists: usize,
    pub numbers: usize,
    pub lent: usize,
    pub left: usize,
    pub answer: usize,
    pub end: usize,
}

// How many there are, by the number in front of them.
fn count_at(row: &[i64], at: usize) -> usize {
    inner::size(row, at).min(LONGEST)
}

pub fn places_in(row: &[i64]) -> Places {
    let lists = 2;
    let before_numbers = inner::behind(row, lists, count_at(row, 1));
    let numbers = before_numbers.saturating_add(1);
    let before_lent = numbers.saturating_add(count_at(row, before_numbers));
    let lent = before_lent.saturating_add(1);
    let buffers = count_at(row, before_lent);
    let left = inner::behind(row, lent, buffers);
    let answer = inner::behind(row, left, buffers);
    let end = inner::behind(row, answer, 1);
    Places {
        lists,
        numbers,
        lent,
        left,
        answer,
        end,
    }
}
