#![tactic(auto)]

// Replays stored answers. Each line of standard input, up to 64 KiB in all, is a call with its arguments and what must come of it, in
// decimal numbers. Each line that does not agree is written; then, for each call, how many cases there were and how many agreed.
mod calls;
mod case;

ghost use Rattle.std.specs.Prelude.{◌≤◌, length, IfOk};

use calls::CALLS;
use column::sequence;
use std::io;
use std::io::Read;

// The most bytes that are read.
const BYTES: usize = 65_536;

// The most numbers that are read of a line, more than any case has.
const NUMBERS: usize = 128;

fn count(counts: &mut [u64; CALLS], call: usize) {
    if call < CALLS {
        counts[call] = counts[call].wrapping_add(1);
    }
}

// The numbers of a line; none where it cannot be read.
fn numbers_of<'r>(line: &[u8], row: &'r mut [i64]) -> &'r [i64] {
    match text::read(line, row) {
        Ok(n) => &row[..n],
        Err(_) => &row[..0],
    }
}

// Counts a line among the cases of its call, and among those that agreed; at 0 if it has no known call or cannot be read. One that does
// not agree is written.
fn replay_line(
    out: &impl Print,
    line: &[u8],
    cases: &mut [u64; CALLS],
    agreed: &mut [u64; CALLS],
) -> io::Result<()> {
    let mut numbers = [0i64; NUMBERS];
    let row = numbers_of(line, &mut numbers);
    let call = calls::known(sequence::entry_or(row, 0, -1));
    count(cases, call);
    if case::agrees(row, call) {
        count(agreed, call);
        Ok(())
    } else {
        out.write_all(line)?;
        out.write_all(b" does not agree\n")
    }
}

fn is_break(byte: &u8) -> bool {
    *byte == b'\n'
}

// A line without its line break.
fn before_break(line: &[u8]) -> &[u8] {
    line.strip_suffix(b"\n").unwrap_or(line)
}

// Replays line after line, and answers how many there were.
fn replay(
    out: &impl Print,
    input: &[u8],
    cases: &mut [u64; CALLS],
    agreed: &mut [u64; CALLS],
) -> io::Result<u64> {
    let mut lines: u64 = 0;
    for line in input.split_inclusive(is_break) {
        replay_line(out, before_break(line), cases, agreed)?;
        lines = lines.wrapping_add(1);
    }
    Ok(lines)
}

fn write_count(out: &impl Print, count: u64, what: &[u8]) -> io::Result<()> {
    out.print(count)?;
    out.write_all(what)
}

fn report(out: &impl Print, name: &[u8], cases: u64, agreed: u64) -> io::Result<()> {
    out.write_all(name)?;
    out.write_all(b" ")?;
    write_count(out, cases, b" cases, ")?;
    write_count(out, agreed, b" agreed\n")
}

// The count of a call, if there is such a call.
fn count_of(counts: &[u64; CALLS], call: usize) -> u64 {
    if call < CALLS { counts[call] } else { 0 }
}

// A line for each call, from number 2 on: empty has no case. Each name has a line.
pub fn report_all(
    out: &impl Print,
    names: &[u8],
    cases: &[u64; CALLS],
    agreed: &[u64; CALLS],
) -> io::Result<()> {
    for (i, line) in names.split_inclusive(is_break).enumerate() {
        let call = i.saturating_add(2);
        report(
            out,
            before_break(line),
            count_of(cases, call),
            count_of(agreed, call),
        )?;
    }
    Ok(())
}

// Reads until the buffer is full or the input ends, and answers how many bytes it put at the front of the buffer.
fn read_full(input: &mut impl Read, buffer: &mut [u8]) -> io::Result<usize>
    ensures { IfOk result (λ n. n ≤ length buffer.new) }
{
    let mut done = 0;
    for _ in 0..buffer.len() {
        let n = input.read(&mut buffer[done..])?;
        if n == 0 {
            break;
        }
        done += n;
    }
    Ok(done)
}

fn main(rt: HostRuntime) -> io::Result<()> {
    let mut buffer = [0u8; BYTES];
    let n = read_full(&mut rt.stdin(), &mut buffer)?;
    let mut cases = [0u64; CALLS];
    let mut agreed = [0u64; CALLS];
    let lines = replay(&rt, &buffer[..n], &mut cases, &mut agreed)?;
    calls::report(&rt, &cases, &agreed)?;
    if cases[0] > 0 {
        rt.write_all(b"unknown ")?;
        write_count(&rt, cases[0], b" cases\n")?;
    }
    write_count(&rt, lines, b" lines, ")?;
    write_count(&rt, n as u64, b" bytes read\n")
}
