// The colours of values. Those of a job, in ascending order, take the colours in turn: of two that follow each other each has its own, and
// it is the same in every drawing of the job. Those that only the combination has take the colours from the last on, backwards.
// Each of these two lists is bounded, so that its insertions cost little however many runs there are, and so does its place on the stack.
// A value for which there was no room has a colour by its own number.
use crate::seams;
use column::sequence;
use job::inner::Job;

// How many colours there are, c0 to c10 of the style.
const COLOURS: u64 = 11;

// The most values of a list, as many as a strip can show.
pub const LIST: usize = seams::UNITS;

// The free entries of a list are the greatest number.
pub const FREE: i64 = i64::MAX;

// Values in ascending order, and then the free entries.
#[derive(Drop)]
struct List<'a> {
    values: &'a mut [i64],
}

impl<'a> List<'a> {
    // How many values are below a value: its index, if the list has it.
    fn place_of(&self, value: i64) -> usize {
        self.values.partition_point(|other| *other < value)
    }

    // Which of the values it is, if it is one of them.
    fn find(&self, value: i64) -> Option<u64> {
        let place = self.place_of(value);
        match self.values.get(place) {
            Some(other) if *other == value => Some(place as u64),
            _ => None,
        }
    }

    fn is_full(&self) -> bool {
        sequence::entry_or(self.values, LIST - 1, 0) < FREE
    }

    // Puts a value to its place; those from there on go one further.
    fn insert(&mut self, value: i64) {
        let place = self.place_of(value);
        if let Some(rest) = self.values.get_mut(place..) {
            if !rest.is_empty() {
                rest.rotate_right(1);
                rest[0] = value;
            }
        }
    }
}

// The values of a job, and those that only the combination of its columns has.
#[derive(Drop)]
pub struct Colours<'a> {
    own: List<'a>,
    others: List<'a>,
}

impl<'a> Colours<'a> {
    // The arrays are lent, with free entries alone, so that each stands on the stack once.
    pub fn new(own: &'a mut [i64], others: &'a mut [i64], job: Job, combined: &[i64]) -> Self {
        let mut colours = Colours {
            own: List { values: own },
            others: List { values: others },
        };
        for value in job.values {
            colours.take_own(*value);
        }
        if let Some(fill) = job.fill {
            colours.take_own(fill);
        }
        for value in combined {
            colours.take_other(*value);
        }
        colours
    }

    // Takes a value of the job, if it is new and there is room.
    fn take_own(&mut self, value: i64) {
        if self.own.find(value).is_none() && !self.own.is_full() {
            self.own.insert(value);
        }
    }

    // Takes a value of the combination, if no list has it and there is room.
    fn take_other(&mut self, value: i64) {
        if self.own.find(value).is_none()
            && self.others.find(value).is_none()
            && !self.others.is_full()
        {
            self.others.insert(value);
        }
    }

    // Which colour a value has.
    pub fn colour_of(&self, value: i64) -> u64 {
        if let Some(place) = self.own.find(value) {
            return place % COLOURS;
        }
        if let Some(place) = self.others.find(value) {
            return COLOURS - 1 - place % COLOURS;
        }
        value.cast_unsigned() % COLOURS
    }
}
