// Reading a job.
use crate::inner::entry::{Entry, entry_of};
use crate::inner::problem::Problem;
use crate::inner::{Name, Size};
use std::io;
use std::io::Read;

// The most bytes of a line.
const LONGEST: usize = 256;

// What ends the reading before the job does.
enum Stop {
    Problem(Problem),
    Input(io::Error),
}

impl From<Problem> for Stop {
    fn from(problem: Problem) -> Stop {
        Stop::Problem(problem)
    }
}

impl From<io::Error> for Stop {
    fn from(error: io::Error) -> Stop {
        Stop::Input(error)
    }
}

// What has been read of a job, and where reading stands: the number of the line, its bytes so far, and whether they are a comment.
#[derive(Drop)]
pub struct Reader<'a> {
    offsets: &'a mut [usize],
    ends: &'a mut [i64],
    values: &'a mut [i64],
    lines: &'a mut [i64],
    names: &'a mut [Name],
    columns: usize,
    runs: usize,
    fill: Option<i64>,
    number: i64,
    line: [u8; LONGEST],
    length: usize,
    comment: bool,
}

impl<'a> Reader<'a> {
    // A reader that puts what it reads into the slices. These bound how many columns and runs there can be.
    pub fn new(
        offsets: &'a mut [usize],
        ends: &'a mut [i64],
        values: &'a mut [i64],
        lines: &'a mut [i64],
        names: &'a mut [Name],
    ) -> Self {
        Reader {
            offsets,
            ends,
            values,
            lines,
            names,
            columns: 0,
            runs: 0,
            fill: None,
            number: 0,
            line: [0; LONGEST],
            length: 0,
            comment: false,
        }
    }

    // Keeps where the runs of a column start, or those of the last one end.
    fn put_offset(&mut self) {
        if let Some(place) = self.offsets.get_mut(self.columns) {
            *place = self.runs;
        }
    }

    // Keeps the number of the line.
    fn put_line(&mut self) {
        if let Some(place) = self.lines.get_mut(self.runs.saturating_add(self.columns)) {
            *place = self.number;
        }
    }

    fn take_fill(&mut self, fill: i64) -> Result<(), Problem> {
        if self.fill.is_some() {
            return Err(Problem::SecondFill);
        }
        self.fill = Some(fill);
        Ok(())
    }

    fn take_column(&mut self, name: &[u8]) -> Result<(), Problem> {
        let Some(place) = self.names.get_mut(self.columns) else {
            return Err(Problem::Columns);
        };
        for (to, byte) in place.iter_mut().zip(name) {
            *to = *byte;
        }
        self.put_offset();
        self.put_line();
        self.columns = self.columns.saturating_add(1);
        Ok(())
    }

    fn take_run(&mut self, end: i64, value: i64) -> Result<(), Problem> {
        if self.columns == 0 {
            return Err(Problem::NoColumn);
        }
        let runs = self.runs;
        if runs >= self.ends.len() || runs >= self.values.len() {
            return Err(Problem::Runs);
        }
        self.ends[runs] = end;
        self.values[runs] = value;
        self.put_line();
        self.runs = runs + 1;
        Ok(())
    }

    // The line is at its end.
    fn end_line(&mut self) -> Result<(), Problem> {
        let line = self.line;
        let length = self.length;
        self.number = self.number.wrapping_add(1);
        self.length = 0;
        self.comment = false;
        if length > LONGEST {
            return Err(Problem::Line);
        }
        match entry_of(&line[..length])? {
            None => Ok(()),
            Some(Entry::Column(name)) => self.take_column(name),
            Some(Entry::Fill(fill)) => self.take_fill(fill),
            Some(Entry::Run { end, value }) => self.take_run(end, value),
        }
    }

    // One more byte of the line, no line break.
    fn keep_byte(&mut self, byte: u8) {
        if self.comment {
            return;
        }
        if byte == b'#' {
            self.comment = true;
            return;
        }
        if let Some(place) = self.line.get_mut(self.length) {
            *place = byte;
        }
        self.length = self.length.saturating_add(1);
    }

    fn take_bytes(&mut self, bytes: &[u8]) -> Result<(), Problem> {
        for byte in bytes {
            if *byte == b'\n' {
                self.end_line()?;
            } else {
                self.keep_byte(*byte);
            }
        }
        Ok(())
    }

    // The last line may have no line break. The turns are counted up to a number that no input uses up, since nothing says that the
    // input ends.
    fn read_all(&mut self, input: &mut impl Read) -> Result<(), Stop> {
        let mut buffer = [0u8; 65536];
        for _ in 0..u64::MAX {
            let n = input.read(&mut buffer)?;
            if n == 0 {
                break;
            }
            self.take_bytes(&buffer[..n])?;
        }
        self.end_line()?;
        self.put_offset();
        Ok(())
    }

    // Reads a job. Where there is none, a message has said why.
    pub fn read(&mut self, input: &mut impl Read, rt: &impl Eprint) -> Option<Size> {
        match self.read_all(input) {
            Ok(()) => Some(Size {
                columns: self.columns,
                runs: self.runs,
                fill: self.fill,
            }),
            Err(Stop::Problem(problem)) => {
                let _ = eprintln!(rt; "combine: line {}: {problem}", self.number);
                None
            }
            Err(Stop::Input(error)) => {
                let _ = eprintln!(rt; "combine: standard input: {error}");
                None
            }
        }
    }
}
