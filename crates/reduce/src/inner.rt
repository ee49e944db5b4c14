// Workers that assume what the calls have asked. A walk passes runs as long as their ends rise, so that question 4 is asked on the way.
ghost use Rattle.std.specs.Prelude.{◌≤◌, ◌^◌, true, ◌&&◌, ◌≡◌, pos, nat_abs, length, None};
ghost use Rattle.std.specs.Int.Signed.{lt_z};
ghost use Rattle.column.specs.Questions.{ends_valid};
ghost use Rattle.column.specs.Runs.{to_nat, runs_of};
ghost use Rattle.slice.specs.Calls.{slice_runs};
ghost use Rattle.reduce.specs.Calls.{add_product, add_square, reduction, FiniteReduction, kind_of, bits_of};
ghost use Rattle.reduce.specs.Workers.{add_wrapped, WalkedSum, StoppedSum, SumOf, ProductsOf, ExactProducts, AllProducts, AroundMean, WalkedSquares};
ghost use Rattle.reduce.specs.Workers.{Squarable, SquaresOf, ExactRun, Window, divisor_of, VarianceBy, ReducesWindow};

use crate::{Moments, Reduction};
use slice::inner::search;
use slice::inner::search::TouchedRuns;

// How far a sum came: how many runs, the end of the last of them, and their total.
#[derive(Clone, Copy)]
pub struct WholeSum {
    pub runs: usize,
    pub end: i64,
    pub total: i64,
}

#[derive(Clone, Copy)]
pub struct FloatSum {
    pub runs: usize,
    pub end: i64,
    pub total: f64,
}

// The products of a mean, and how many runs from the first on are converted with nothing rounded.
#[derive(Clone, Copy)]
pub struct ProductSum {
    pub runs: usize,
    pub end: i64,
    pub total: f64,
    pub exact: usize,
}

// What a window comes to, and how many of its runs have ends that rise.
#[derive(Clone, Copy)]
pub struct WindowReduction {
    pub runs: usize,
    pub reduction: Reduction,
}

// Run × value onto a sum, modulo 2^64.
fn add_weight(total: i64, run: i64, value: i64) -> i64
    requires { run ≡ pos (to_nat run) }
    ensures { result ≡ add_wrapped total (to_nat run) value }
{
    num::wrapping_add(total, num::wrapping_mul(run, value))
}

// Do two ends rise, one after the other?
fn both_rise(before: i64, first: i64, second: i64) -> bool
    ensures { result ≡ lt_z before first && lt_z first second }
{
    before < first && first < second
}

// Two runs at each turn, as long as both ends rise.
fn sum_pairs(ends: &[i64], values: &[i64], start: i64) -> WholeSum
    requires { (length ends.now ≡ length values.now) × (start ≡ pos (to_nat start)) }
    ensures { WalkedSum (to_nat start) ends.now values.now result.runs result.end result.total }
{
    let mut total: i64 = 0;
    let mut before = start;
    for pair in 0..ends.len() / 2 {
        let i = 2 * pair;
        let first = ends[i];
        let second = ends[i + 1];
        if !both_rise(before, first, second) {
            return WholeSum {
                runs: i,
                end: before,
                total,
            };
        }
        let one = add_weight(total, first - before, values[i]);
        total = add_weight(one, second - first, values[i + 1]);
        before = second;
    }
    WholeSum {
        runs: ends.len() / 2 * 2,
        end: before,
        total,
    }
}

// The sum of the runs, up to the first whose end does not rise.
fn sum_runs(ends: &[i64], values: &[i64], start: i64) -> WholeSum
    requires { (length ends.now ≡ length values.now) × (start ≡ pos (to_nat start)) }
    ensures { StoppedSum (to_nat start) ends.now values.now result.runs result.end result.total }
{
    let pairs = sum_pairs(ends, values, start);
    let mut total = pairs.total;
    let mut before = pairs.end;
    for i in pairs.runs..ends.len() {
        let end = ends[i];
        if end <= before {
            return WholeSum {
                runs: i,
                end: before,
                total,
            };
        }
        total = add_weight(total, end - before, values[i]);
        before = end;
    }
    WholeSum {
        runs: ends.len(),
        end: before,
        total,
    }
}

// The sum of the runs of a window; the last ends where the window does.
pub fn sum_window(ends: &[i64], values: &[i64], window: TouchedRuns) -> WholeSum
    requires { Window window ends.now values.now }
    ensures { SumOf window ends.now values.now result.runs result.total }
{
    let count = window.count;
    let start = window.start;
    if count == 0 {
        return WholeSum {
            runs: 0,
            end: start,
            total: 0,
        };
    }
    let first = window.first;
    let end = window.end;
    let last = first + (count - 1);
    let sum = sum_runs(&ends[first..last], &values[first..last], start);
    let before = sum.end;
    if sum.runs < count - 1 {
        return sum;
    }
    if end <= before {
        return sum;
    }
    WholeSum {
        runs: count,
        end,
        total: add_weight(sum.total, end - before, values[last]),
    }
}

// Does the end rise, and are the run and its value converted with nothing rounded?
fn is_exact(before: i64, end: i64, value: i64) -> bool
    requires { before ≡ pos (to_nat before) }
    ensures { result ≡ true → ExactRun before end value }
{
    if end <= before {
        return false;
    }
    float::is_exact(end - before) && float::is_exact(value)
}

// Run × value onto a sum: both converted, the product and the sum rounded.
fn add_product(total: f64, run: i64, value: i64) -> f64
    requires { run ≡ pos (to_nat run) }
    ensures { result ≡ add_product total (to_nat run) value }
{
    total + float::to_f64(run) * float::to_f64(value)
}

// The same where nothing is rounded in converting.
fn add_exact_product(total: f64, run: i64, value: i64) -> f64
    requires { (run ≡ pos (to_nat run)) × (nat_abs run ≤ 2 ^ 53) × (nat_abs value ≤ 2 ^ 53) }
    ensures { result ≡ add_product total (to_nat run) value }
{
    total + float::inner::exact(run) * float::inner::exact(value)
}

// The products as long as nothing is rounded in converting; most columns are at their end then.
fn exact_products(ends: &[i64], values: &[i64], start: i64) -> FloatSum
    requires { (length ends.now ≡ length values.now) × (start ≡ pos (to_nat start)) }
    ensures { ExactProducts (to_nat start) ends.now values.now result.runs result.end result.total }
{
    let mut total = 0.0;
    let mut before = start;
    for i in 0..ends.len() {
        let end = ends[i];
        let value = values[i];
        if !is_exact(before, end, value) {
            return FloatSum {
                runs: i,
                end: before,
                total,
            };
        }
        total = add_exact_product(total, end - before, value);
        before = end;
    }
    FloatSum {
        runs: ends.len(),
        end: before,
        total,
    }
}

// The products of the runs, up to the first whose end does not rise.
fn products(ends: &[i64], values: &[i64], start: i64) -> ProductSum
    requires { (length ends.now ≡ length values.now) × (start ≡ pos (to_nat start)) }
    ensures { AllProducts (to_nat start) ends.now values.now result.runs result.end result.total result.exact }
{
    let exact = exact_products(ends, values, start);
    let mut total = exact.total;
    let mut before = exact.end;
    for i in exact.runs..ends.len() {
        let end = ends[i];
        if end <= before {
            return ProductSum {
                runs: i,
                end: before,
                total,
                exact: exact.runs,
            };
        }
        total = add_product(total, end - before, values[i]);
        before = end;
    }
    ProductSum {
        runs: ends.len(),
        end: before,
        total,
        exact: exact.runs,
    }
}

// The products of the runs of a window.
fn product_window(ends: &[i64], values: &[i64], window: TouchedRuns) -> ProductSum
    requires { Window window ends.now values.now }
    ensures { ProductsOf window ends.now values.now result.runs result.total result.exact }
{
    let count = window.count;
    let start = window.start;
    if count == 0 {
        return ProductSum {
            runs: 0,
            end: start,
            total: 0.0,
            exact: 0,
        };
    }
    let first = window.first;
    let end = window.end;
    let last = first + (count - 1);
    let sum = products(&ends[first..last], &values[first..last], start);
    let before = sum.end;
    if sum.runs < count - 1 {
        return sum;
    }
    if end <= before {
        return sum;
    }
    ProductSum {
        runs: count,
        end,
        total: add_product(sum.total, end - before, values[last]),
        exact: sum.exact,
    }
}

// The square of the distance from the mean, times the run, onto a sum.
fn add_square(mean: f64, total: f64, run: i64, value: i64) -> f64
    requires { run ≡ pos (to_nat run) }
    ensures { result ≡ add_square mean total (to_nat run) value }
{
    let d = float::to_f64(value) - mean;
    total + d * d * float::to_f64(run)
}

// The same where nothing is rounded in converting.
fn add_exact_square(mean: f64, total: f64, run: i64, value: i64) -> f64
    requires { (run ≡ pos (to_nat run)) × (nat_abs run ≤ 2 ^ 53) × (nat_abs value ≤ 2 ^ 53) }
    ensures { result ≡ add_square mean total (to_nat run) value }
{
    let d = float::inner::exact(value) - mean;
    total + d * d * float::inner::exact(run)
}

// The squares of the first runs, which are known to be converted with nothing rounded.
fn exact_squares(ends: &[i64], values: &[i64], start: i64, mean: f64, exact: usize) -> FloatSum
    requires { (start ≡ pos (to_nat start)) × AroundMean (to_nat start) ends.now values.now mean exact }
    ensures { WalkedSquares mean (to_nat start) ends.now values.now result.runs result.end result.total }
{
    let mut total = 0.0;
    let mut before = start;
    for i in 0..exact {
        let end = ends[i];
        total = add_exact_square(mean, total, end - before, values[i]);
        before = end;
    }
    FloatSum {
        runs: exact,
        end: before,
        total,
    }
}

// The squares of the runs.
fn squares(ends: &[i64], values: &[i64], start: i64, mean: f64, exact: usize) -> FloatSum
    requires { (start ≡ pos (to_nat start)) × AroundMean (to_nat start) ends.now values.now mean exact }
    ensures { WalkedSquares mean (to_nat start) ends.now values.now (length ends.now) result.end result.total }
{
    let first = exact_squares(ends, values, start, mean, exact);
    let mut total = first.total;
    let mut before = first.end;
    for i in first.runs..ends.len() {
        let end = ends[i];
        total = add_square(mean, total, end - before, values[i]);
        before = end;
    }
    FloatSum {
        runs: ends.len(),
        end: before,
        total,
    }
}

// The squares of the runs of a window.
fn square_window(ends: &[i64], values: &[i64], window: TouchedRuns, mean: f64, exact: usize) -> f64
    requires { Squarable window ends.now values.now mean exact }
    ensures { SquaresOf mean window ends.now values.now result }
{
    let count = window.count;
    let first = window.first;
    let start = window.start;
    let end = window.end;
    let last = first + (count - 1);
    let sum = squares(&ends[first..last], &values[first..last], start, mean, exact);
    let before = sum.end;
    add_square(mean, sum.total, end - before, values[last])
}

// What the squares are divided by: length − ddof where that is 1 to 2^63 − 1, else 0. Past that it wraps to a negative number.
fn divisor(length: i64, ddof: i64) -> i64
    requires { length ≡ pos (to_nat length) }
    ensures { result ≡ divisor_of length ddof }
{
    if length <= ddof {
        return 0;
    }
    num::larger(num::wrapping_sub(length, ddof), 0)
}

// The variance around a mean, by a divisor; 0 stands for none.
fn variance(
    ends: &[i64],
    values: &[i64],
    window: TouchedRuns,
    mean: f64,
    exact: usize,
    divisor: i64,
) -> Reduction
    requires { Squarable window ends.now values.now mean exact × (divisor ≡ pos (to_nat divisor)) }
    ensures { VarianceBy divisor window ends.now values.now mean result }
{
    if divisor <= 0 {
        return Reduction::Nothing;
    }
    let squares = square_window(ends, values, window, mean, exact);
    Reduction::Fraction(Moments {
        mean,
        variance: squares / float::to_f64(divisor),
    })
}

// The worker of every reduction: of a whole sequence, whose ends may be wrong, and of a slice.
pub fn reduce_window(
    ends: &[i64],
    values: &[i64],
    window: TouchedRuns,
    code: u8,
    ddof: i64,
) -> WindowReduction
    requires { Window window ends.now values.now }
    ensures { ReducesWindow code ddof window ends.now values.now result }
{
    if code == 0 {
        let sum = sum_window(ends, values, window);
        return WindowReduction {
            runs: sum.runs,
            reduction: Reduction::Whole(sum.total),
        };
    }
    let count = window.count;
    if count == 0 {
        return WindowReduction {
            runs: 0,
            reduction: Reduction::Nothing,
        };
    }
    let products = product_window(ends, values, window);
    if products.runs < count {
        return WindowReduction {
            runs: products.runs,
            reduction: Reduction::Nothing,
        };
    }
    let length = window.end - window.start;
    let mean = products.total / float::to_f64(length);
    if code == 1 {
        return WindowReduction {
            runs: count,
            reduction: Reduction::Fraction(Moments {
                mean,
                variance: mean,
            }),
        };
    }
    let by = divisor(length, ddof);
    WindowReduction {
        runs: count,
        reduction: variance(ends, values, window, mean, products.exact, by),
    }
}

// The reduction of a slice.
pub fn reduce_slice(
    ends: &[i64],
    values: &[i64],
    start: i64,
    stop: i64,
    code: u8,
    ddof: i64,
) -> Reduction
    requires { (ends_valid ends.now ≡ None) × (length ends.now ≡ length values.now) }
    ensures { (result ≡ reduction code ddof (slice_runs start stop (runs_of ends.now values.now))) × FiniteReduction result }
{
    let window = search::touched(ends, start, stop);
    let reduced = reduce_window(ends, values, window, code, ddof);
    reduced.reduction
}

// The kind byte of document 01.
pub fn kind(reduction: Reduction) -> u8
    ensures { result ≡ kind_of reduction }
{
    match reduction {
        Reduction::Whole(_) => 1,
        Reduction::Fraction(_) => 2,
        Reduction::Nothing => 0,
    }
}

// The 64 bits of document 01.
pub fn bits(reduction: Reduction) -> u64
    requires { FiniteReduction reduction }
    ensures { result ≡ bits_of reduction }
{
    match reduction {
        Reduction::Whole(total) => num::as_unsigned(total),
        Reduction::Fraction(moments) => f64::to_bits(moments.variance),
        Reduction::Nothing => 0,
    }
}
