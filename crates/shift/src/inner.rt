// Workers that assume what the calls have asked.
ghost use Rattle.std.specs.Prelude.{◌+◌, ◌≤◌, ◌<◌, ◌≡◌, length, None};
ghost use Rattle.column.specs.Questions.{ends_valid};
ghost use Rattle.column.specs.Runs.{runs_of, dense, encode, Fills};
ghost use Rattle.shift.specs.Calls.{shift_values};
ghost use Rattle.shift.specs.Workers.{Shiftable, shifted_up, shifted_down};

use column::inner::Writer;
use column::sequence;
use slice::inner::search;

// The fill, and after it what the runs show, up to the length.
fn shift_up(
    ends: &[i64],
    values: &[i64],
    by: usize,
    length: usize,
    fill: i64,
    out_ends: &mut [i64],
    out_values: &mut [i64],
) -> usize
    requires { (0 < by) × Shiftable ends.now values.now by length out_ends.old out_values.old }
    ensures { Fills (encode (shifted_up by fill (dense (runs_of ends.now values.now)))) out_ends out_values result }
{
    let filled = column::inner::push_merged(
        Writer { at: 0, last: fill },
        out_ends,
        out_values,
        by as i64,
        fill,
    );
    let last = search::first_end_above(ends, (length - by - 1) as i64);
    let whole = sequence::part(ends, 0, last);
    let shown = sequence::part(values, 0, last);
    let writer = column::inner::append_merged(filled, whole, shown, 0, by, out_ends, out_values);
    let value = values[last];
    let end = column::inner::push_merged(writer, out_ends, out_values, length as i64, value);
    end.at + 1
}

// What the runs show from a position on, and after it the fill, up to the length.
fn shift_down(
    ends: &[i64],
    values: &[i64],
    by: usize,
    length: usize,
    fill: i64,
    out_ends: &mut [i64],
    out_values: &mut [i64],
) -> usize
    requires { Shiftable ends.now values.now by length out_ends.old out_values.old }
    ensures { Fills (encode (shifted_down by fill (dense (runs_of ends.now values.now)))) out_ends out_values result }
{
    let first = search::first_end_above(ends, by as i64);
    let value = values[first];
    let left = sequence::part(ends, first, ends.len());
    let shown = sequence::part(values, first, ends.len());
    let writer = column::inner::append_merged(
        Writer { at: 0, last: value },
        left,
        shown,
        by,
        0,
        out_ends,
        out_values,
    );
    if by == 0 {
        return writer.at + 1;
    }
    let end = column::inner::push_merged(writer, out_ends, out_values, length as i64, fill);
    end.at + 1
}

// A sequence moved by a distance.
pub fn shift(
    ends: &[i64],
    values: &[i64],
    distance: i64,
    fill: i64,
    out_ends: &mut [i64],
    out_values: &mut [i64],
) -> usize
    requires { (ends_valid ends.now ≡ None) × (length ends.now ≡ length values.now)
        × (length ends.now + 1 ≤ length out_ends.old) × (length ends.now + 1 ≤ length out_values.old) }
    ensures { Fills (encode (shift_values distance fill (dense (runs_of ends.now values.now)))) out_ends out_values result }
{
    let length = sequence::to_nat(sequence::length(ends));
    if length == 0 {
        return 0;
    }
    let by = num::unsigned_abs(distance) as usize;
    if length <= by {
        let filled = column::inner::push_merged(
            Writer { at: 0, last: fill },
            out_ends,
            out_values,
            length as i64,
            fill,
        );
        return filled.at + 1;
    }
    if 0 < distance {
        shift_up(ends, values, by, length, fill, out_ends, out_values)
    } else {
        shift_down(ends, values, by, length, fill, out_ends, out_values)
    }
}
