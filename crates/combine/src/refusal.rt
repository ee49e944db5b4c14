// What the library refuses, said by document 01's name and number, with the line that it is about.
use column::error::{Error, Refusal};
use column::sequence;
use job::inner::Job;
use job::inner::output::Output;
use std::io;
use std::io::Write;

// No message has more bytes, so each is written at once.
const MESSAGE: usize = 512;

fn write_code<W: Write>(out: &mut W, word: &[u8]) -> io::Result<()> {
    out.write_all(b"combine: UnknownCode (1): ")?;
    out.write_all(word)?;
    out.write_all(b" is none of the codes 0 to 9 or their names\n")
}

fn write_ends<W: Write>(out: &mut W, job: Job, column: usize, index: usize) -> io::Result<()> {
    let ends = job.ends_of(column);
    let line = job.line_at(column, index.saturating_add(1));
    let name = job.name_of(column);
    let end = sequence::entry_or(ends, index, 0);
    let start = sequence::end_before(ends, index);
    writeln!(
        out,
        "combine: line {line}: column {name}: InvalidEnds (4): the end {end} is not above {start}, where its run starts"
    )
}

// The first column of a length.
fn column_of_length(job: Job, length: i64) -> usize {
    for column in 0..job.columns() {
        if sequence::length(job.ends_of(column)) == length {
            return column;
        }
    }
    job.columns()
}

// The line where a column ends.
fn last_line(job: Job, column: usize) -> i64 {
    job.line_at(column, job.ends_of(column).len())
}

// The shortest column and the longest, each in a message of its own: the second is written even where the first cannot be.
fn write_lengths<W: Write>(out: &mut W, job: Job, least: i64, greatest: i64) -> io::Result<()> {
    let shortest = column_of_length(job, least);
    let longest = column_of_length(job, greatest);
    write!(
        out,
        "combine: line {}: column {}: UnequalLength (10): it ends at {least}, there is no fill, and ",
        last_line(job, shortest),
        job.name_of(shortest)
    )?;
    let _ = out.flush();
    writeln!(
        out,
        "at line {} column {} ends at {greatest}",
        last_line(job, longest),
        job.name_of(longest)
    )
}

fn write_refusal<W: Write>(out: &mut W, refusal: Refusal, word: &[u8], job: Job) -> io::Result<()> {
    match refusal.error {
        Error::UnknownCode { code: _ } => write_code(out, word)?,
        Error::InvalidEnds { index } => write_ends(out, job, refusal.in_key.unwrap_or(0), index)?,
        Error::UnequalLength { left, right } => write_lengths(out, job, left, right)?,
        _ => writeln!(out, "combine: refused")?,
    }
    out.flush()
}

// Says why the columns are not combined. The code is the word. Never a part of its caller, where its buffer would take stack in every run.
#[inline(never)]
pub fn say_refusal(err: &impl Print, refusal: Refusal, word: &[u8], job: Job) {
    let mut out: Output<_, MESSAGE> = Output::new(io::writer(err));
    let _ = write_refusal(&mut out, refusal, word, job);
}
