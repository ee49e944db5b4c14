// Where columns break, by the x of a drawing.
use column::sequence;
use job::inner::Job;

// How many units wide a strip is: a power of 2, with this exponent.
pub const UNITS: usize = 1024;

const BITS: usize = 10;

// The positions that are drawn: from one up to another.
#[derive(Clone, Copy)]
pub struct Window {
    pub from: i64,
    pub to: i64,
}

// The whole part of a * UNITS / b, for a < b < 2^63: its bits one by one, so that no number reaches 2^64.
fn fraction(a: u64, b: u64) -> u64 {
    let mut rest = a;
    let mut bits: u64 = 0;
    for _ in 0..BITS {
        rest = rest.wrapping_add(rest);
        bits = bits.wrapping_add(bits);
        if b <= rest {
            rest = rest.wrapping_sub(b);
            bits = bits.wrapping_add(1);
        }
    }
    bits
}

impl Window {
    // The x of a position.
    pub fn x_of(self, position: i64) -> i64 {
        if position <= self.from {
            return 0;
        }
        if position >= self.to {
            return (UNITS as u64).cast_signed();
        }
        let a = position.wrapping_sub(self.from).cast_unsigned();
        let b = self.to.wrapping_sub(self.from).cast_unsigned();
        fraction(a, b).cast_signed()
    }
}

// The breaks on one x: the first position and the last, and how many breaks.
#[derive(Clone, Copy)]
pub struct Seam {
    pub first: i64,
    pub last: i64,
    pub count: u32,
}

impl Seam {
    // Whether its breaks are at several positions.
    pub fn is_near(self) -> bool {
        self.first < self.last
    }

    // Whether it is one position, where several columns break.
    pub fn is_of_several(self) -> bool {
        !self.is_near() && self.count > 1
    }

    pub fn is_single(self) -> bool {
        self.count == 1
    }

    // The seam with one more break.
    fn with_break(self, position: i64) -> Seam {
        let count = self.count.wrapping_add(1);
        if self.count == 0 {
            return Seam {
                first: position,
                last: position,
                count,
            };
        }
        Seam {
            first: self.first.min(position),
            last: self.last.max(position),
            count,
        }
    }
}

// The first position and the last of the breaks on one x.
#[derive(Clone, Copy)]
struct Span {
    first: i64,
    last: i64,
}

impl Span {
    const NONE: Span = Span { first: 0, last: 0 };
}

// The seams of a drawing, one for each x. The counts stand apart, where each takes 4 bytes of the stack and not 8.
#[derive(Drop)]
pub struct Seams {
    spans: [Span; UNITS],
    counts: [u32; UNITS],
}

impl Seams {
    // No breaks.
    pub fn new() -> Self {
        Seams {
            spans: [Span::NONE; UNITS],
            counts: [0; UNITS],
        }
    }

    // Marks the breaks of a job's columns within the window.
    pub fn mark_columns(&mut self, window: Window, job: Job) {
        for c in 0..job.columns() {
            for end in job.ends_of(c) {
                self.mark(window, *end);
            }
        }
    }

    fn mark(&mut self, window: Window, position: i64) {
        if position <= window.from || position >= window.to {
            return;
        }
        let x = window.x_of(position);
        let Seam { first, last, count } = self.at(x).with_break(position);
        let x = sequence::to_nat(x);
        if let Some(place) = self.spans.get_mut(x) {
            *place = Span { first, last };
        }
        if let Some(place) = self.counts.get_mut(x) {
            *place = count;
        }
    }

    pub fn at(&self, x: i64) -> Seam {
        let x = sequence::to_nat(x);
        let Span { first, last } = sequence::entry_or(&self.spans, x, Span::NONE);
        let count = sequence::entry_or(&self.counts, x, 0);
        Seam { first, last, count }
    }
}
