#![tactic(auto)]

pub mod inner;

ghost use Rattle.std.specs.Prelude.{[], ◌∷◌, ◌≡◌};
ghost use Rattle.column.specs.Asking.{shown_asked};
ghost use Rattle.column.specs.Runs.{sequence};
ghost use Rattle.ranges_where.specs.Calls.{WritesRanges};
ghost use Rattle.ranges_where.specs.Calls as calls;

use column::error::Refusal;
use column::sequence;

fn ranges_where_asks(
    ends: &[i64],
    values: &[i64],
    code: u8,
    out_starts: usize,
    out_ends: usize,
) -> Result<(), Refusal>
    ensures { shown_asked result ≡ calls.ranges_where_asked (sequence ends.now values.now) code (out_starts ∷ out_ends ∷ []) }
{
    questions::ask_code(7, 8, code)?;
    questions::ask_sequence_into(ends, values, ends.len(), out_starts, out_ends)
}

// The ranges of positions at which the value is equal to, or less than, a number; touching ranges are one.
pub fn ranges_where(
    ends: &[i64],
    values: &[i64],
    code: u8,
    number: i64,
    out_starts: &mut [i64],
    out_ends: &mut [i64],
) -> Result<usize, Refusal>
    ensures { WritesRanges (calls.ranges_where (sequence ends.now values.now) code number) out_starts out_ends result }
{
    ranges_where_asks(ends, values, code, out_starts.len(), out_ends.len())?;
    let n = inner::ranges_where(ends, values, code, number, out_starts, out_ends);
    Ok(n)
}
