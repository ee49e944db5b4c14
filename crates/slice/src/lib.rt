#![tactic(auto)]

pub mod inner;

ghost use Rattle.std.specs.Prelude.{◌≡◌};
ghost use Rattle.column.specs.Paper.{outcome_of, WritesRuns};
ghost use Rattle.column.specs.Runs.{sequence};
ghost use Rattle.slice.specs.Calls.{PartOf, HandsBack};
ghost use Rattle.slice.specs.Calls as calls;

use column::error::Refusal;
use inner::search;

// A view of a slice: its first run, its start, and its length.
#[derive(Clone, Copy)]
pub struct View {
    pub first: usize,
    pub start: i64,
    pub length: i64,
}

// A part of a list: its first entry, and how many; both are 0 for an empty part.
#[derive(Clone, Copy)]
pub struct Part {
    pub first: usize,
    pub count: usize,
}

// The run that covers a position.
pub fn run_index(ends: &[i64], position: i64) -> Result<Option<usize>, Refusal>
    ensures { outcome_of result ≡ calls.run_index ends.now position }
{
    questions::ask_ends(ends)?;
    if position < 0 {
        return Ok(None);
    }
    let index = search::first_end_above(ends, position);
    if index < ends.len() {
        Ok(Some(index))
    } else {
        Ok(None)
    }
}

// A part of a sequence, from `start` up to `end`, not merged.
pub fn slice(
    ends: &[i64],
    values: &[i64],
    start: i64,
    end: i64,
    out_ends: &mut [i64],
    out_values: &mut [i64],
) -> Result<usize, Refusal>
    ensures { WritesRuns (calls.slice (sequence ends.now values.now) start end) out_ends out_values result }
{
    let touched = search::touched(ends, start, end);
    questions::ask_sequence_into(
        ends,
        values,
        touched.count,
        out_ends.len(),
        out_values.len(),
    )?;
    let n = inner::slice(ends, values, touched, out_ends, out_values);
    Ok(n)
}

// A view of a slice, whose values `slice_view_values` hands back.
pub fn slice_view(ends: &[i64], values: &[i64], start: i64, end: i64) -> Result<View, Refusal>
    ensures { outcome_of result ≡ calls.slice_view (sequence ends.now values.now) start end }
{
    questions::ask_sequence(ends, values)?;
    let touched = search::touched(ends, start, end);
    Ok(View {
        first: touched.first,
        start: touched.start,
        length: touched.end - touched.start,
    })
}

// Where the values of a view stand.
pub fn slice_view_part(ends: &[i64], values: &[i64], start: i64, end: i64) -> Part
    ensures { PartOf result (calls.slice_part (sequence ends.now values.now) start end) values.now }
{
    match questions::ask_sequence(ends, values) {
        Ok(()) => {
            let touched = search::touched(ends, start, end);
            Part {
                first: touched.first,
                count: touched.count,
            }
        }
        Err(_) => Part { first: 0, count: 0 },
    }
}

// The values of a view.
pub fn slice_view_values<'e, 'v>(
    ends: &'e [i64],
    values: &'v [i64],
    start: i64,
    end: i64,
) -> &'v [i64]
    ensures { HandsBack result (calls.slice_part (sequence ends.now values.now) start end) values.entry }
{
    let part = slice_view_part(ends, values, start, end);
    let first = part.first;
    let last = first + part.count;
    &values[first..last]
}
