// Searches in ends. Where ends are not valid they end all the same, somewhere inside.
ghost use Rattle.std.specs.Prelude.{◌≡◌, ◌≤◌, length, None};
ghost use Rattle.column.specs.Questions.{ends_valid};
ghost use Rattle.slice.specs.Calls.{first_end_above};
ghost use Rattle.slice.specs.Workers.{first_end_at_least, clamped_to, touched_by};

use crate::inner;
use column::sequence;

// The lowest index of an end above a position, or how many ends there are. Valid ends are above every negative position.
pub fn first_end_above(ends: &[i64], position: i64) -> usize
    ensures { (result ≤ length ends.now) × (ends_valid ends.now ≡ None → result ≡ first_end_above position ends.now) }
{
    if position < 0 {
        return 0;
    }
    let place = sequence::to_nat(position);
    let mut low: usize = 0;
    let mut size = ends.len();
    while 0 < size {
        low = inner::half(ends, low, size, place);
        size /= 2;
    }
    low
}

// The lowest index of an end at or above a position, or how many ends there are; valid ends are above 0.
pub fn first_end_at_least(ends: &[i64], position: i64) -> usize
    ensures { (result ≤ length ends.now) × (ends_valid ends.now ≡ None → result ≡ first_end_at_least position ends.now) }
{
    if position <= 0 {
        return 0;
    }
    first_end_above(ends, position - 1)
}

// The same, by an exponential search: the end is looked for among twice as many until they have it, since a slice mostly touches few runs.
fn exponential_search(ends: &[i64], position: i64) -> usize
    ensures { (result ≤ length ends.now) × (ends_valid ends.now ≡ None → result ≡ first_end_at_least position ends.now) }
{
    let mut size: usize = 1;
    while size < ends.len() {
        let end = ends[size - 1];
        if position <= end {
            return first_end_at_least(&ends[..size], position);
        }
        size *= 2;
    }
    first_end_at_least(ends, position)
}

// An interval, which is empty unless its end is above its start.
#[derive(Clone, Copy)]
pub struct Interval {
    pub start: i64,
    pub end: i64,
}

// An interval, its start clamped up to 0 and its end down to the length.
pub fn clamped(ends: &[i64], start: i64, end: i64) -> Interval
    ensures { result ≡ clamped_to ends.now start end }
{
    Interval {
        start: num::larger(start, 0),
        end: num::smaller(end, sequence::length(ends)),
    }
}

// The runs that a slice touches, and the slice as clamped: all 0 where it is empty.
#[derive(Clone, Copy)]
pub struct TouchedRuns {
    pub first: usize,
    pub count: usize,
    pub start: i64,
    pub end: i64,
}

// The last of them is looked for after the first.
pub fn touched(ends: &[i64], start: i64, end: i64) -> TouchedRuns
    ensures { ends_valid ends.now ≡ None → result ≡ touched_by start end ends.now }
{
    let interval = clamped(ends, start, end);
    let from = interval.start;
    let to = interval.end;
    if to <= from {
        return TouchedRuns {
            first: 0,
            count: 0,
            start: 0,
            end: 0,
        };
    }
    let first = first_end_above(ends, from);
    let count = exponential_search(&ends[first..], to) + 1;
    TouchedRuns {
        first,
        count,
        start: from,
        end: to,
    }
}
