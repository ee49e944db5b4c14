// Workers that assume what their callers have asked.
ghost use Rattle.std.specs.Prelude.{◌+◌, ◌<◌, ◌^◌, ◌≡◌, length};
ghost use Rattle.num.specs.Numbers.{eq_z};
ghost use Rattle.column.specs.Workers.{place_after, next_place, PushedMerged, Appendable, Appended};

// The last run that was written: its place and its value. Before the first run they are 0 and that run's own value.
#[derive(Clone, Copy)]
pub struct Writer {
    pub at: usize,
    pub last: i64,
}

fn place_after(at: usize, last: i64, value: i64) -> usize
    requires { at + 1 < 2 ^ 64 }
    ensures { result ≡ place_after (eq_z last value) at }
{
    if value != last { at + 1 } else { at }
}

// A run up to `end` after the runs so far: the last run grows if it has the value already.
pub fn push_merged(
    writer: Writer,
    out_ends: &mut [i64],
    out_values: &mut [i64],
    end: i64,
    value: i64,
) -> Writer
    requires { (writer.at + 1 < 2 ^ 64)
        × (next_place writer value < length out_ends.old) × (next_place writer value < length out_values.old) }
    ensures { PushedMerged writer end value out_ends.old out_ends.new out_values.old out_values.new result }
{
    let at = place_after(writer.at, writer.last, value);
    out_ends[at] = end;
    out_values[at] = value;
    Writer { at, last: value }
}

// The runs of a column after the runs so far, merged: its positions from `start` on stand at `offset`.
pub fn append_merged(
    writer: Writer,
    ends: &[i64],
    values: &[i64],
    start: usize,
    offset: usize,
    out_ends: &mut [i64],
    out_values: &mut [i64],
) -> Writer
    requires { Appendable start offset ends.now values.now out_ends.old out_values.old writer }
    ensures { Appended start
        offset ends.now values.now out_ends.old out_ends.new out_values.old out_values.new writer result }
{
    let mut next = writer;
    for r in 0..ends.len() {
        let end = ends[r];
        let value = values[r];
        let to = end as usize - start + offset;
        next = push_merged(next, out_ends, out_values, to as i64, value);
    }
    next
}
