#![tactic(auto)]

// Numbers in lines of text, for the programs.
ghost use Rattle.std.specs.Prelude.{◌<◌, ◌≤◌, length, IfSome, MatchResult};
ghost use Rattle.text.specs.Counts.{Counts};

// A number of the text and the place after it.
#[derive(Clone, Copy)]
struct Number {
    value: i64,
    next: usize,
}

// Digits and the place after them.
#[derive(Clone, Copy)]
struct Digits {
    magnitude: u64,
    next: usize,
}

// As many digits always fit a u64.
const DIGITS: usize = 19;

fn digit(byte: u8) -> Option<u64> {
    match byte {
        b'0'..=b'9' => Some((byte - b'0') as u64),
        _ => None,
    }
}

fn read_digits(line: &[u8], at: usize) -> Digits
    requires { at ≤ length line.now }
    ensures { (at ≤ result.next) × (result.next ≤ length line.now) }
{
    let mut magnitude: u64 = 0;
    for next in at..line.len() {
        match digit(line[next]) {
            Some(digit) => magnitude = magnitude.wrapping_mul(10).wrapping_add(digit),
            None => return Digits { magnitude, next },
        }
    }
    Digits {
        magnitude,
        next: line.len(),
    }
}

// The number after its sign; `limit` is the greatest magnitude that the sign allows. There is none without a digit, or beyond the limit.
fn number_within(line: &[u8], at: usize, negative: bool, limit: u64) -> Option<Number>
    requires { at ≤ length line.now }
    ensures { IfSome result (λ n. (at ≤ n.next) × (n.next ≤ length line.now)) }
{
    let Digits { magnitude, next } = read_digits(line, at);
    let count = next - at;
    if count == 0 || count > DIGITS || magnitude > limit {
        return None;
    }
    let bits = if negative {
        magnitude.wrapping_neg()
    } else {
        magnitude
    };
    Some(Number {
        value: bits.cast_signed(),
        next,
    })
}

// A minus sign, if there is one, and digits.
fn signed_number(line: &[u8], at: usize) -> Option<Number>
    requires { at < length line.now }
    ensures { IfSome result (λ n. (at ≤ n.next) × (n.next ≤ length line.now)) }
{
    if line[at] == b'-' {
        number_within(line, at + 1, true, 0x8000_0000_0000_0000)
    } else {
        number_within(line, at, false, 0x7fff_ffff_ffff_ffff)
    }
}

// Reads a line's numbers, each after a single blank, and answers how many there are. Where the line says anything else, or more numbers
// than there is room, the error is how many were read before.
pub fn read(line: &[u8], row: &mut [i64]) -> Result<usize, usize>
    ensures { MatchResult result (λ n. Counts n row.new) (λ n. Counts n row.new) }
{
    let mut n = 0;
    let mut at = 0;
    while at < line.len() {
        if n == row.len() {
            return Err(n);
        }
        let number = signed_number(line, at).ok_or(n)?;
        row[n] = number.value;
        n += 1;
        if number.next < line.len() && line[number.next] != b' ' {
            return Err(n);
        }
        at = number.next + 1;
    }
    Ok(n)
}
