#![tactic(auto)]

// The structs of the C interface, and the answers of the calls laid flat in them.
ghost use Rattle.std.specs.Prelude.{◌≡◌};
ghost use Rattle.ffi.specs.Reading as Reading;
ghost use Rattle.ffi.specs.Reading.{read_refusal, read_checked, read_counted, read_equality, read_found, read_got, read_viewed, read_part, read_batched};
ghost use Rattle.ffi.specs.Reading.{read_summed, read_reduced, read_planned_many, read_fill, laid_refusal, laid_checked, laid_counted, laid_equality, laid_found};
ghost use Rattle.ffi.specs.Reading.{laid_got, laid_viewed, laid_batched, laid_summed, laid_reduction, laid_reduced, laid_planned_many};

use column::answer::RleBatch;
use column::error::{Error, Refusal};
use many::Planned;
use reduce::Reduction;
use slice::{Part, View};

// A refusal: document 01's number, its values in document 01's order as 64 bits each (0 where it has fewer), and the position that it
// may carry, with 1 in `in_key`. All 0 with an answer.
#[repr(C)]
#[derive(Clone, Copy)]
pub struct RlRefusal {
    pub number: u64,
    pub first: u64,
    pub second: u64,
    pub third: u64,
    pub in_key: u64,
    pub position: u64,
}

// The count is 0 with a refusal.
#[repr(C)]
#[derive(Clone, Copy)]
pub struct RlCounted {
    pub refusal: RlRefusal,
    pub count: usize,
}

// 1 or 0; 0 with a refusal.
#[repr(C)]
#[derive(Clone, Copy)]
pub struct RlEquality {
    pub refusal: RlRefusal,
    pub equal: u64,
}

// Both counts are 0 with a refusal.
#[repr(C)]
#[derive(Clone, Copy)]
pub struct RlPlannedMany {
    pub refusal: RlRefusal,
    pub segments: usize,
    pub indexes: usize,
}

// `found` is 1 or 0, and 0 with a refusal; without a find the index is 0.
#[repr(C)]
#[derive(Clone, Copy)]
pub struct RlFound {
    pub refusal: RlRefusal,
    pub found: u64,
    pub index: usize,
}

// `found` is 1 or 0, and 0 with a refusal; without a find the count is 0.
#[repr(C)]
#[derive(Clone, Copy)]
pub struct RlGot {
    pub refusal: RlRefusal,
    pub found: u64,
    pub count: usize,
}

// All are 0 with a refusal.
#[repr(C)]
#[derive(Clone, Copy)]
pub struct RlViewed {
    pub refusal: RlRefusal,
    pub first: usize,
    pub start: i64,
    pub length: i64,
}

// A part of a list: its first entry, and how many; both are 0 for an empty part.
#[repr(C)]
#[derive(Clone, Copy)]
pub struct RlPart {
    pub first: usize,
    pub count: usize,
}

// Both counts are 0 with a refusal.
#[repr(C)]
#[derive(Clone, Copy)]
pub struct RlBatched {
    pub refusal: RlRefusal,
    pub keys: usize,
    pub runs: usize,
}

// The total is 0 with a refusal.
#[repr(C)]
#[derive(Clone, Copy)]
pub struct RlSummed {
    pub refusal: RlRefusal,
    pub total: i64,
}

// `kind` is document 01's kind byte, and 0 with a refusal: 0 Nothing, 1 Whole, 2 Fraction. What the kind does not have is 0.
#[repr(C)]
#[derive(Clone, Copy)]
pub struct RlReduced {
    pub refusal: RlRefusal,
    pub kind: u64,
    pub whole: i64,
    pub mean: f64,
    pub variance: f64,
}

// What stands where a column has ended: missing where `given` is 0, else the value.
#[repr(C)]
#[derive(Clone, Copy)]
pub struct RlFill {
    pub given: u64,
    pub value: i64,
}

#[repr(C)]
#[derive(Clone, Copy)]
pub struct RlRle {
    pub runs: usize,
}

// A number and its values, with the position where there is one.
fn fields(number: u64, first: u64, second: u64, third: u64, in_key: Option<usize>) -> RlRefusal
    ensures { result ≡ Reading.fields number first second third in_key }
{
    match in_key {
        None => RlRefusal {
            number,
            first,
            second,
            third,
            in_key: 0,
            position: 0,
        },
        Some(p) => RlRefusal {
            number,
            first,
            second,
            third,
            in_key: 1,
            position: p as u64,
        },
    }
}

// Cold, so that no export keeps its fields ready at each turn of a loop, or a register for where they go (docs/SPEED.md).
#[cold]
fn refused(r: Refusal) -> RlRefusal
    ensures { (read_refusal result ≡ r) × (result ≡ laid_refusal r) }
{
    let error = r.error;
    let in_key = r.in_key;
    match error {
        Error::UnknownCode { code } => fields(1, code as u64, 0, 0, in_key),
        Error::LengthMismatch { what, left, right } => {
            fields(2, what as u64, left as u64, right as u64, in_key)
        }
        Error::InvalidOffsets => fields(3, 0, 0, 0, in_key),
        Error::InvalidEnds { index } => fields(4, index as u64, 0, 0, in_key),
        Error::TooMany { number } => fields(5, number as u64, 0, 0, in_key),
        Error::NegativeRun { index, run } => {
            fields(6, index as u64, num::as_unsigned(run), 0, in_key)
        }
        Error::Overflow => fields(7, 0, 0, 0, in_key),
        Error::DuplicateKey { position } => fields(8, position as u64, 0, 0, in_key),
        Error::InvalidInterval { index, start, end } => fields(
            9,
            index as u64,
            num::as_unsigned(start),
            num::as_unsigned(end),
            in_key,
        ),
        Error::UnequalLength { left, right } => fields(
            10,
            num::as_unsigned(left),
            num::as_unsigned(right),
            0,
            in_key,
        ),
        Error::LengthTooShort {
            requested,
            required,
        } => fields(
            11,
            num::as_unsigned(requested),
            num::as_unsigned(required),
            0,
            in_key,
        ),
        Error::ShortBuffer {
            which,
            needed,
            given,
        } => fields(12, which as u64, needed as u64, given as u64, in_key),
    }
}

impl From<Result<(), Refusal>> for RlRefusal {
    ghost from_gives = { λ c r. (read_checked r ≡ c) × (r ≡ laid_checked c) };

    fn from(c: Result<(), Refusal>) -> RlRefusal {
        match c {
            Ok(()) => fields(0, 0, 0, 0, None),
            Err(r) => refused(r),
        }
    }
}

impl From<Result<usize, Refusal>> for RlCounted {
    ghost from_gives = { λ c r. (read_counted r ≡ c) × (r ≡ laid_counted c) };

    fn from(c: Result<usize, Refusal>) -> RlCounted {
        match c {
            Ok(n) => {
                let refusal = RlRefusal::from(Ok(()));
                RlCounted { refusal, count: n }
            }
            Err(r) => {
                let refusal = refused(r);
                RlCounted { refusal, count: 0 }
            }
        }
    }
}

impl From<Result<bool, Refusal>> for RlEquality {
    ghost from_gives = { λ c r. (read_equality r ≡ c) × (r ≡ laid_equality c) };

    fn from(e: Result<bool, Refusal>) -> RlEquality {
        match e {
            Ok(true) => {
                let refusal = RlRefusal::from(Ok(()));
                RlEquality { refusal, equal: 1 }
            }
            Ok(false) => {
                let refusal = RlRefusal::from(Ok(()));
                RlEquality { refusal, equal: 0 }
            }
            Err(r) => {
                let refusal = refused(r);
                RlEquality { refusal, equal: 0 }
            }
        }
    }
}

impl From<Result<Planned, Refusal>> for RlPlannedMany {
    ghost from_gives = { λ c r. (read_planned_many r ≡ c) × (r ≡ laid_planned_many c) };

    fn from(p: Result<Planned, Refusal>) -> RlPlannedMany {
        match p {
            Ok(planned) => {
                let refusal = RlRefusal::from(Ok(()));
                RlPlannedMany {
                    refusal,
                    segments: planned.segments,
                    indexes: planned.indexes,
                }
            }
            Err(r) => {
                let refusal = refused(r);
                RlPlannedMany {
                    refusal,
                    segments: 0,
                    indexes: 0,
                }
            }
        }
    }
}

impl From<Result<Option<usize>, Refusal>> for RlFound {
    ghost from_gives = { λ c r. (read_found r ≡ c) × (r ≡ laid_found c) };

    fn from(f: Result<Option<usize>, Refusal>) -> RlFound {
        match f {
            Ok(Some(index)) => {
                let refusal = RlRefusal::from(Ok(()));
                RlFound {
                    refusal,
                    found: 1,
                    index,
                }
            }
            Ok(None) => {
                let refusal = RlRefusal::from(Ok(()));
                RlFound {
                    refusal,
                    found: 0,
                    index: 0,
                }
            }
            Err(r) => {
                let refusal = refused(r);
                RlFound {
                    refusal,
                    found: 0,
                    index: 0,
                }
            }
        }
    }
}

impl From<Result<Option<usize>, Refusal>> for RlGot {
    ghost from_gives = { λ c r. (read_got r ≡ c) × (r ≡ laid_got c) };

    fn from(g: Result<Option<usize>, Refusal>) -> RlGot {
        match g {
            Ok(Some(count)) => {
                let refusal = RlRefusal::from(Ok(()));
                RlGot {
                    refusal,
                    found: 1,
                    count,
                }
            }
            Ok(None) => {
                let refusal = RlRefusal::from(Ok(()));
                RlGot {
                    refusal,
                    found: 0,
                    count: 0,
                }
            }
            Err(r) => {
                let refusal = refused(r);
                RlGot {
                    refusal,
                    found: 0,
                    count: 0,
                }
            }
        }
    }
}

impl From<Result<View, Refusal>> for RlViewed {
    ghost from_gives = { λ c r. (read_viewed r ≡ c) × (r ≡ laid_viewed c) };

    fn from(v: Result<View, Refusal>) -> RlViewed {
        match v {
            Ok(view) => {
                let refusal = RlRefusal::from(Ok(()));
                RlViewed {
                    refusal,
                    first: view.first,
                    start: view.start,
                    length: view.length,
                }
            }
            Err(r) => {
                let refusal = refused(r);
                RlViewed {
                    refusal,
                    first: 0,
                    start: 0,
                    length: 0,
                }
            }
        }
    }
}

impl From<Part> for RlPart {
    ghost from_gives = { λ p r. read_part r ≡ p };

    fn from(p: Part) -> RlPart {
        RlPart {
            first: p.first,
            count: p.count,
        }
    }
}

impl From<Result<RleBatch, Refusal>> for RlBatched {
    ghost from_gives = { λ c r. (read_batched r ≡ c) × (r ≡ laid_batched c) };

    fn from(b: Result<RleBatch, Refusal>) -> RlBatched {
        match b {
            Ok(batch) => {
                let refusal = RlRefusal::from(Ok(()));
                RlBatched {
                    refusal,
                    keys: batch.keys,
                    runs: batch.runs,
                }
            }
            Err(r) => {
                let refusal = refused(r);
                RlBatched {
                    refusal,
                    keys: 0,
                    runs: 0,
                }
            }
        }
    }
}

impl From<Result<i64, Refusal>> for RlSummed {
    ghost from_gives = { λ c r. (read_summed r ≡ c) × (r ≡ laid_summed c) };

    fn from(s: Result<i64, Refusal>) -> RlSummed {
        match s {
            Ok(total) => {
                let refusal = RlRefusal::from(Ok(()));
                RlSummed { refusal, total }
            }
            Err(r) => {
                let refusal = refused(r);
                RlSummed { refusal, total: 0 }
            }
        }
    }
}

// A refusal, or that there is none, and a reduction beside it.
fn reduction(refusal: RlRefusal, answer: Reduction) -> RlReduced
    ensures { result ≡ laid_reduction refusal answer }
{
    match answer {
        Reduction::Whole(whole) => RlReduced {
            refusal,
            kind: 1,
            whole,
            mean: 0.0,
            variance: 0.0,
        },
        Reduction::Fraction(moments) => RlReduced {
            refusal,
            kind: 2,
            whole: 0,
            mean: moments.mean,
            variance: moments.variance,
        },
        Reduction::Nothing => RlReduced {
            refusal,
            kind: 0,
            whole: 0,
            mean: 0.0,
            variance: 0.0,
        },
    }
}

impl From<Result<Reduction, Refusal>> for RlReduced {
    ghost from_gives = { λ c r. (read_reduced r ≡ c) × (r ≡ laid_reduced c) };

    fn from(r: Result<Reduction, Refusal>) -> RlReduced {
        match r {
            Ok(answer) => reduction(RlRefusal::from(Ok(())), answer),
            Err(refusal) => reduction(refused(refusal), Reduction::Nothing),
        }
    }
}

// An argument, read from C.
pub fn fill(f: RlFill) -> Option<i64>
    ensures { result ≡ read_fill f }
{
    if f.given == 0 { None } else { Some(f.value) }
}
