// The refusals of document 01, numbers 1 to 12 in this order.
#[derive(Clone, Copy)]
pub enum Error {
    UnknownCode {
        code: u8,
    },
    LengthMismatch {
        what: u8,
        left: usize,
        right: usize,
    },
    InvalidOffsets,
    InvalidEnds {
        index: usize,
    },
    TooMany {
        number: usize,
    },
    NegativeRun {
        index: usize,
        run: i64,
    },
    Overflow,
    DuplicateKey {
        position: usize,
    },
    InvalidInterval {
        index: usize,
        start: i64,
        end: i64,
    },
    UnequalLength {
        left: i64,
        right: i64,
    },
    LengthTooShort {
        requested: i64,
        required: i64,
    },
    ShortBuffer {
        which: usize,
        needed: usize,
        given: usize,
    },
}

// An error, and the key or sequence position that one inside a batch or a many-way call also carries.
#[derive(Clone, Copy)]
pub struct Refusal {
    pub error: Error,
    pub in_key: Option<usize>,
}
