#![tactic(auto)]

pub mod inner;

ghost use Rattle.std.specs.Prelude.{◌≡◌, ◌^◌, leb, pos, nat_abs};
ghost use Rattle.std.specs.Float.{binary64};
ghost use Rattle.std.specs.Float.Ieee.{to_bits};
ghost use Rattle.std.specs.Float.Ieee.Nearest.{closest};
ghost use Rattle.float.specs.Float.{converted};

// Of 64 digits a float keeps 53: the weight of the lowest of them. Division by it is a shift, and its remainder a mask.
const UNIT: u64 = 0x800;

// One less than half of that: with it what is above a half carries, and a tie where one more is added.
const UNDER_HALF: u64 = 0x3FF;

// n / 2^11 to the nearest, ties to even. At a tie an odd `whole` adds the one that carries.
fn nearest_of(n: u64) -> u64
    ensures { result ≡ closest n 2048 }
{
    let whole = n / UNIT;
    whole + (n % UNIT + UNDER_HALF + whole % 2) / UNIT
}

// The exponent's field of a number whose highest digit is at 63, less the one that the digit itself adds.
const EXPONENT: u64 = 1085;

// The weight of the exponent's field.
const FIELD: u64 = 0x10_0000_0000_0000;

// The bits of the float nearest to n. The leading zeros say the exponent, and with them shifted out the upper 53 digits are kept.
// The highest of these adds one to the exponent's field, and a carry out of the rounding one more.
fn magnitude_bits(n: u64) -> u64
    ensures { result ≡ to_bits binary64 (converted (pos n)) }
{
    if n == 0 {
        return 0;
    }
    let zeros = u64::leading_zeros(n);
    let kept = nearest_of(n << zeros);
    let exponent = EXPONENT - zeros as u64;
    exponent * FIELD + kept
}

// The sign's bit, of an i64 and of a float.
const TOP: u64 = 0x8000_0000_0000_0000;

// The bits of the float nearest to x.
pub fn nearest_bits(x: i64) -> u64
    ensures { result ≡ to_bits binary64 (converted x) }
{
    magnitude_bits(num::unsigned_abs(x)) + num::as_unsigned(x) / TOP * TOP
}

// Up to this size nothing is rounded.
const EXACT: i64 = 0x20_0000_0000_0000;

// Is nothing rounded?
pub fn is_exact(x: i64) -> bool
    ensures { result ≡ leb (nat_abs x) (2 ^ 53) }
{
    -EXACT <= x && x <= EXACT
}

// The float nearest to x. What loses nothing is one instruction, and the rest is rounded by its bits.
pub fn to_f64(x: i64) -> f64
    ensures { result ≡ converted x }
{
    if is_exact(x) {
        inner::exact(x)
    } else {
        f64::from_bits(nearest_bits(x))
    }
}
