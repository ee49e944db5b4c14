#![tactic(auto)]

// Combines the columns of a job, which is read from standard input, by a code.
//
//     combine CODE < JOB                writes the combined runs, as a column of a job
//     combine svg CODE < JOB            draws the columns and their combination, as SVG
//     combine svg CODE FROM TO < JOB    the same, of the positions FROM up to TO
//
// CODE is a name or a number of document 01: 0 add, 1 subtract, 2 multiply, 3 smaller, 4 larger, 5 first, 6 second, 7 equal, 8 less,
// 9 midpoint. Where a job is refused, nothing is written to standard output, and a message to standard error.
mod colours;
mod refusal;
mod seams;
mod svg;

use column::sequence;
use job::inner::entry::number_of;
use job::inner::output::Output;
use job::inner::reader::Reader;
use job::inner::{Job, NO_NAME, new_lines, new_runs};
use rle::Rle;
use seams::Window;
use std::env::FillError;
use std::io;
use std::io::Write;
use std::rt::Env;

// The most bytes of an argument.
const LONGEST: usize = 64;

// As many bytes are written to standard output at once.
const CHUNK: usize = 65_536;

fn code_name(code: u8) -> &'static str {
    match code {
        0 => "add",
        1 => "subtract",
        2 => "multiply",
        3 => "smaller",
        4 => "larger",
        5 => "first",
        6 => "second",
        7 => "equal",
        8 => "less",
        9 => "midpoint",
        _ => "",
    }
}

// A code; 255, which the library refuses, for a word that is none.
fn code_of(word: &[u8]) -> u8 {
    for code in 0..10u8 {
        if code_name(code).as_bytes() == word {
            return code;
        }
    }
    match number_of(word) {
        Some(number) => u8::try_from(number).unwrap_or(255),
        None => 255,
    }
}

// How many arguments there are, the program's name among them.
fn argument_count(rt: &impl Env) -> usize {
    let mut nothing = [0u8; 0];
    for i in 0..usize::MAX {
        if let Err(FillError::NotPresent) = rt.arg(i, &mut nothing) {
            return i;
        }
    }
    usize::MAX
}

// An argument; empty where it is missing or too long.
fn argument<'w>(rt: &impl Env, index: usize, word: &'w mut [u8; LONGEST]) -> &'w [u8] {
    match rt.arg(index, word) {
        Ok(n) => &word[..n],
        Err(_) => &word[..0],
    }
}

fn number_argument(rt: &impl Env, index: usize) -> Option<i64> {
    let mut word = [0u8; LONGEST];
    number_of(argument(rt, index, &mut word))
}

// Writes the combined runs, as a column of a job.
fn write_column<W: Write>(
    out: &mut W,
    job: Job,
    name: &str,
    ends: &[i64],
    values: &[i64],
) -> io::Result<()> {
    let columns = job.columns();
    let given = job.ends.len();
    let runs = ends.len();
    let length = sequence::length(ends);
    writeln!(
        out,
        "# {name} of {columns} columns with {given} runs: {runs} runs, up to {length}"
    )?;
    writeln!(out, "column {name}")?;
    for (end, value) in ends.iter().zip(values) {
        writeln!(out, "{end} {value}")?;
    }
    Ok(())
}

// Writes what was asked for. The positions that are drawn are those that the columns have.
fn write(
    rt: &HostRuntime,
    window: Option<Window>,
    job: Job,
    name: &str,
    ends: &[i64],
    values: &[i64],
) -> io::Result<()> {
    let mut out: Output<_, CHUNK> = Output::new(io::writer(rt));
    match window {
        None => write_column(&mut out, job, name, ends, values)?,
        Some(window) => {
            let shown = Window {
                from: window.from,
                to: window.to.min(sequence::length(ends)),
            };
            svg::draw(&mut out, shown, job, name, ends, values)?;
        }
    }
    out.flush()
}

// Combines the columns of a job that has been read. The code is an argument of the program.
fn finish(rt: &HostRuntime, window: Option<Window>, index: usize, job: Job) {
    let mut word = [0u8; LONGEST];
    let word = argument(rt, index, &mut word);
    let code = code_of(word);
    let mut ends = new_runs();
    let mut values = new_runs();
    let combined = zip_many::zip_many(
        job.offsets,
        job.ends,
        job.values,
        job.fill,
        code,
        &mut ends,
        &mut values,
    );
    match combined {
        Ok(n) => {
            let ends = sequence::part(&ends, 0, n);
            let values = sequence::part(&values, 0, n);
            if let Err(error) = write(rt, window, job, code_name(code), ends, values) {
                let _ = eprintln!(rt; "combine: standard output: {error}");
            }
        }
        Err(refusal) => refusal::say_refusal(&rt.stderr(), refusal, word, job),
    }
}

fn run(rt: &HostRuntime, window: Option<Window>, index: usize) {
    let mut offsets = [0usize; Rle::MAX_COLUMNS + 1];
    let mut ends = new_runs();
    let mut values = new_runs();
    let mut lines = new_lines();
    let mut names = [NO_NAME; Rle::MAX_COLUMNS];
    let mut reader = Reader::new(&mut offsets, &mut ends, &mut values, &mut lines, &mut names);
    if let Some(size) = reader.read(&mut rt.stdin(), rt) {
        let job = Job::new(&offsets, &ends, &values, &lines, &names, size);
        finish(rt, window, index, job);
    }
}

fn say_usage(rt: &HostRuntime) {
    let _ = eprintln!(rt;
        "usage: combine CODE, or combine svg CODE, or combine svg CODE FROM TO; the job is standard input"
    );
}

// Never a part of `main`, where its buffer would take stack while `run` runs.
#[inline(never)]
fn say_interval(rt: &HostRuntime, from: i64, to: i64) {
    let _ = eprintln!(rt;
        "combine: InvalidInterval (9): FROM {from} and TO {to} are not 0 <= FROM <= TO"
    );
}

// Draws the positions from one up to another.
fn run_window(rt: &HostRuntime, from: i64, to: i64) {
    match questions::ask_intervals(&[from], &[to]) {
        Ok(()) => run(rt, Some(Window { from, to }), 2),
        Err(_) => say_interval(rt, from, to),
    }
}

fn main(rt: HostRuntime) {
    let arguments = argument_count(&rt);
    let whole = Window {
        from: 0,
        to: i64::MAX,
    };
    let mut word = [0u8; LONGEST];
    let drawn = argument(&rt, 1, &mut word) == b"svg".as_slice();
    match (drawn, arguments) {
        (false, 2) => run(&rt, None, 1),
        (true, 3) => run(&rt, Some(whole), 2),
        (true, 5) => match (number_argument(&rt, 3), number_argument(&rt, 4)) {
            (Some(from), Some(to)) => run_window(&rt, from, to),
            _ => say_usage(&rt),
        },
        _ => say_usage(&rt),
    }
}
