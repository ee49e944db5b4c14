#![tactic(auto)]

ghost use Rattle.std.specs.Prelude.{◌≡◌, ◌+◌, ◌*◌, ◌^◌, min, ◌+ℤ◌, ◌-ℤ◌, ◌*ℤ◌, int_lt, unsigned_abs};
ghost use Rattle.num.specs.Numbers.{eq_z, residue, signed, wrap, saturated, smaller_of, larger_of, midpoint, flag, operation, comparison};

// The two's complement bits. A cast of a negative number is refused; these arms cost no instruction.
pub fn as_unsigned(x: i64) -> u64
    ensures { result ≡ residue x }
{
    if x < 0 { !((!x) as u64) } else { x as u64 }
}

// The number that has these two's complement bits; undoes `as_unsigned`.
pub fn as_signed(bits: u64) -> i64
    ensures { result ≡ signed bits }
{
    if bits < 0x8000_0000_0000_0000 {
        bits as i64
    } else {
        !((!bits) as i64)
    }
}

// How far a number is from 0.
pub fn unsigned_abs(x: i64) -> u64
    ensures { result ≡ unsigned_abs x }
{
    if x < 0 { (!x) as u64 + 1 } else { x as u64 }
}

// Code 0: one addition, and no trap.
pub fn wrapping_add(x: i64, y: i64) -> i64
    ensures { result ≡ wrap (x +ℤ y) }
{
    as_signed(std::num::wrapping_add_u64(as_unsigned(x), as_unsigned(y)))
}

// Code 1: one subtraction, and no trap.
pub fn wrapping_sub(x: i64, y: i64) -> i64
    ensures { result ≡ wrap (x -ℤ y) }
{
    as_signed(std::num::wrapping_sub_u64(as_unsigned(x), as_unsigned(y)))
}

// Code 2: one multiplication, as the high half goes away.
pub fn wrapping_mul(x: i64, y: i64) -> i64
    ensures { result ≡ wrap (x *ℤ y) }
{
    let product = full_product(as_unsigned(x), as_unsigned(y));
    as_signed(product.low)
}

// A number of 128 bits, by its halves.
#[derive(Clone, Copy)]
pub struct Product {
    pub high: u64,
    pub low: u64,
}

// Division by it is a shift, and its remainder a mask.
const HALF: u64 = 0x1_0000_0000;

// The product with no bit lost, from the four products of 32-bit halves.
pub fn full_product(a: u64, b: u64) -> Product
    ensures { result.high * 2 ^ 64 + result.low ≡ a * b }
{
    let a_high = a / HALF;
    let a_low = a % HALF;
    let b_high = b / HALF;
    let b_low = b % HALF;
    let low = a_low * b_low;
    let left = a_high * b_low + low / HALF;
    let right = a_low * b_high + left % HALF;
    Product {
        high: a_high * b_high + left / HALF + right / HALF,
        low: right % HALF * HALF + low % HALF,
    }
}

// The sum, or the greatest usize where the sum is above it.
pub fn saturating_add(a: usize, b: usize) -> usize
    ensures { result ≡ saturated (a + b) }
{
    if a <= usize::MAX - b {
        a + b
    } else {
        usize::MAX
    }
}

// The product, or the greatest usize where the product is above it.
pub fn saturating_mul(a: usize, b: usize) -> usize
    ensures { result ≡ saturated (a * b) }
{
    let product = full_product(a as u64, b as u64);
    if product.high == 0 {
        product.low as usize
    } else {
        usize::MAX
    }
}

// Code 3, and where a segment of two runs ends; no branch is left of it.
pub fn smaller(x: i64, y: i64) -> i64
    ensures { result ≡ smaller_of x y }
{
    if x <= y { x } else { y }
}

// Code 4.
pub fn larger(x: i64, y: i64) -> i64
    ensures { result ≡ larger_of x y }
{
    if x <= y { y } else { x }
}

// Of two sizes or places.
pub fn smaller_count(a: usize, b: usize) -> usize
    ensures { result ≡ min a b }
{
    if a <= b { a } else { b }
}

// Code 7.
pub fn equal(x: i64, y: i64) -> i64
    ensures { result ≡ flag (eq_z x y) }
{
    if x == y { 1 } else { 0 }
}

// Code 8.
pub fn less(x: i64, y: i64) -> i64
    ensures { result ≡ flag (int_lt x y) }
{
    if x < y { 1 } else { 0 }
}

// Codes 7 and 8 as a test; any other code is taken for 8.
pub fn holds(code: u8, x: i64, y: i64) -> bool
    ensures { result ≡ comparison code x y }
{
    if code == 7 { x == y } else { x < y }
}

// Code 9. The exact sum may fit no i64; half of it is the bits that both have, and half of those that differ.
pub fn midpoint_toward_zero(x: i64, y: i64) -> i64
    ensures { result ≡ midpoint x y }
{
    let differ = x ^ y;
    let down = (x & y) + (differ >> 1);
    if down < 0 { down + (differ & 1) } else { down }
}

// What a code shows for two values. A code past the list is refused before it comes here.
pub fn apply(code: u8, x: i64, y: i64) -> i64
    ensures { result ≡ operation code x y }
{
    match code {
        0 => wrapping_add(x, y),
        1 => wrapping_sub(x, y),
        2 => wrapping_mul(x, y),
        3 => smaller(x, y),
        4 => larger(x, y),
        5 => x,
        6 => y,
        7 => equal(x, y),
        8 => less(x, y),
        _ => midpoint_toward_zero(x, y),
    }
}
