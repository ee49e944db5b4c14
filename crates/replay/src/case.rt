// A case: a call, and what a row says of it.
use crate::calls;
use column::sequence;
use replay_case::inner::shape::Places;
use replay_case::inner::{Outcome, agreement, shape};

fn outcome(row: &[i64], call: usize, places: Places) -> Outcome {
    let lists = sequence::part(row, places.lists, places.numbers);
    let numbers = sequence::part(row, places.numbers, places.lent);
    let lent = sequence::part(row, places.lent, places.left);
    calls::outcome(call, lists, numbers, lent)
}

// Whether a row agrees. One that has a list too long, or a number too few or too many, does not.
pub fn agrees(row: &[i64], call: usize) -> bool {
    if call == 0 {
        return false;
    }
    let places = shape::places_in(row);
    if places.end != row.len() {
        return false;
    }
    agreement::agrees(row, places, outcome(row, call, places))
}
