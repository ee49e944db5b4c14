// What can be wrong with a line of a job.
use std::fmt;

#[derive(Clone, Copy)]
pub enum Problem {
    Line,
    Column,
    Columns,
    Fill,
    SecondFill,
    Run,
    NoColumn,
    Runs,
}

impl fmt::Display for Problem {
    fn fmt<W: fmt::Write>(&self, f: &mut fmt::Formatter<W>) -> fmt::Result {
        match self {
            Problem::Line => write!(f, "more than 256 bytes"),
            Problem::Column => write!(
                f,
                "expected column NAME, of at most 32 letters, digits, . _ and -"
            ),
            Problem::Columns => write!(f, "TooMany (5): a job has at most 128 columns"),
            Problem::Fill => write!(f, "expected fill VALUE, a number of 64 bits"),
            Problem::SecondFill => write!(f, "a second fill"),
            Problem::Run => write!(
                f,
                "expected END VALUE, two numbers of 64 bits, or column NAME, or fill VALUE"
            ),
            Problem::NoColumn => write!(f, "a run before the first column"),
            Problem::Runs => write!(f, "a job has at most 131072 runs"),
        }
    }
}
