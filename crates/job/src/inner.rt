// A job as text, a line for each run:
//
//     # a comment, up to the end of its line; empty lines count for nothing
//     fill VALUE       what stands where a column has ended, for all columns; at most once
//     column NAME      starts a column
//     END VALUE        a run of the column: from the end before it, 0 for the first, up to END it shows VALUE
//
// Words stand apart by blanks. END and VALUE are decimal, from -2^63 to 2^63 - 1. A name has up to 32 letters, digits, `.`, `_` and `-`.
// Whether ends rise, and lengths agree, is for the library to say.
pub mod entry;
pub mod output;
pub mod problem;
pub mod reader;

ghost use Rattle.std.specs.Prelude.{◌≡◌, length};

use column::sequence;
use entry::NAME;
use rle::Rle;

// The most runs of a job.
pub const RUNS: usize = 131_072;

// As many lines start a column or hold a run.
pub const LINES: usize = RUNS + Rle::MAX_COLUMNS;

// Made by a function, so that of so many zeros a caller's proof sees only how many they are.
pub fn new_runs() -> [i64; RUNS]
    ensures { 131072 ≡ length result }
{
    [0; RUNS]
}

// The same, for the numbers of lines.
pub fn new_lines() -> [i64; LINES]
    ensures { 131200 ≡ length result }
{
    [0; LINES]
}

// A name; a shorter one ends with a 0.
pub type Name = [u8; NAME];

pub const NO_NAME: Name = [0; NAME];

// How many columns and runs have been read, and what stands where a column has ended.
#[derive(Clone, Copy)]
pub struct Size {
    pub columns: usize,
    pub runs: usize,
    pub fill: Option<i64>,
}

// A job that has been read: its runs, one column after another.
#[derive(Clone, Copy)]
pub struct Job<'a> {
    // Where each column's runs start, and where the last one's end.
    pub offsets: &'a [usize],
    pub ends: &'a [i64],
    pub values: &'a [i64],
    // The number of each line that starts a column or holds a run.
    lines: &'a [i64],
    names: &'a [Name],
    pub fill: Option<i64>,
}

impl<'a> Job<'a> {
    // Of what a reader was lent, what it has read.
    pub fn new(
        offsets: &'a [usize],
        ends: &'a [i64],
        values: &'a [i64],
        lines: &'a [i64],
        names: &'a [Name],
        size: Size,
    ) -> Self {
        Job {
            offsets: sequence::part(offsets, 0, size.columns.saturating_add(1)),
            ends: sequence::part(ends, 0, size.runs),
            values: sequence::part(values, 0, size.runs),
            lines,
            names,
            fill: size.fill,
        }
    }

    pub fn columns(self) -> usize {
        sequence::count(self.offsets)
    }

    fn offset(self, column: usize) -> usize {
        sequence::entry_or(self.offsets, column, 0)
    }

    pub fn ends_of(self, column: usize) -> &'a [i64] {
        sequence::part(
            self.ends,
            self.offset(column),
            self.offset(column.saturating_add(1)),
        )
    }

    pub fn values_of(self, column: usize) -> &'a [i64] {
        sequence::part(
            self.values,
            self.offset(column),
            self.offset(column.saturating_add(1)),
        )
    }

    // The number of the line with a run of a column, its runs counted from 1, or at 0 of the line that starts the column.
    pub fn line_at(self, column: usize, run: usize) -> i64 {
        let at = self
            .offset(column)
            .saturating_add(column)
            .saturating_add(run);
        sequence::entry_or(self.lines, at, 0)
    }

    pub fn name_of(self, column: usize) -> &'a str {
        match self.names.get(column) {
            Some(name) => entry::text_of(name),
            None => "",
        }
    }
}
