#![tactic(auto)]

pub mod inner;

ghost use Rattle.std.specs.Prelude.{◌≡◌};
ghost use Rattle.column.specs.Asking.{shown_asked};
ghost use Rattle.column.specs.Paper.{outcome_of};
ghost use Rattle.column.specs.Runs.{sequence};
ghost use Rattle.reduce.specs.Calls.{Reduces};
ghost use Rattle.reduce.specs.Calls as calls;
ghost use Rattle.reduce.specs.Workers.{ends_pass, whole_of};

use column::error::{Error, Refusal};
use column::sequence;
use slice::inner::search::TouchedRuns;

// A mean, and the variance around it; a mean by itself stands in both.
#[derive(Clone, Copy)]
pub struct Moments {
    pub mean: f64,
    pub variance: f64,
}

// What a reduction comes to.
#[derive(Clone, Copy)]
pub enum Reduction {
    Whole(i64),
    Fraction(Moments),
    Nothing,
}

// 4, of ends of which so many rise.
fn ask_rising(rising: usize, count: usize) -> Result<(), Refusal>
    ensures { shown_asked result ≡ ends_pass rising count }
{
    if rising < count {
        Err(Refusal {
            error: Error::InvalidEnds { index: rising },
            in_key: None,
        })
    } else {
        Ok(())
    }
}

// A whole sequence as a window.
fn whole(ends: &[i64]) -> TouchedRuns
    ensures { result ≡ whole_of ends.now }
{
    TouchedRuns {
        first: 0,
        count: ends.len(),
        start: 0,
        end: sequence::length(ends),
    }
}

// The sum over all positions. One pass asks about the ends and sums.
pub fn sum(ends: &[i64], values: &[i64]) -> Result<i64, Refusal>
    ensures { outcome_of result ≡ calls.sum (sequence ends.now values.now) }
{
    questions::ask_lengths(3, ends.len(), values.len())?;
    let sum = inner::sum_window(ends, values, whole(ends));
    ask_rising(sum.runs, ends.len())?;
    Ok(sum.total)
}

// The sum, mean or variance over all positions, by code. The pass that sums for it asks about the ends.
pub fn reduce(ends: &[i64], values: &[i64], code: u8, ddof: i64) -> Result<Reduction, Refusal>
    ensures { Reduces (calls.reduce (sequence ends.now values.now) code ddof) result }
{
    questions::ask_code(0, 2, code)?;
    questions::ask_lengths(3, ends.len(), values.len())?;
    let window = inner::reduce_window(ends, values, whole(ends), code, ddof);
    ask_rising(window.runs, ends.len())?;
    Ok(window.reduction)
}
