// Workers that assume what the calls have asked.
pub mod searches;

ghost use Rattle.std.specs.Prelude.{◌<◌, ◌^◌, map, ◌≡◌, None};
ghost use Rattle.column.specs.Questions.{ends_valid};
ghost use Rattle.column.specs.Runs.{sequence, runs_of, Fills};
ghost use Rattle.slice.specs.Workers.{touched_by};
ghost use Rattle.column.specs.Workers.{FillsFlat};
ghost use Rattle.slice.specs.Calls.{slice_runs};
ghost use Rattle.reduce.specs.Calls.{reduction};
ghost use Rattle.reduce.specs.Workers.{FilledReductions};
ghost use Rattle.getitems.specs.Calls.{interval_runs};
ghost use Rattle.getitems.specs.Workers.{found, SliceAt, Gettable, Reducible};

use slice::inner::search;

// How many runs a slice has, by the first of them and the first end at or past the slice's end.
pub fn count_at(ends: &[i64], start: i64, stop: i64, first: usize, last: usize) -> usize
    requires { last < 2 ^ 63 }
    ensures { ends_valid ends.now
        ≡ None → first ≡ found ends.now 0 start → last ≡ found ends.now 1 stop → result ≡ (touched_by start stop ends.now).count }
{
    let interval = search::clamped(ends, start, stop);
    let from = interval.start;
    let to = interval.end;
    if to <= from {
        return 0;
    }
    if last < first {
        return 0;
    }
    last - first + 1
}

// A slice, from its first run up to the run that ends at or past its end: looking for that one first takes longer than it saves where slices
// are short.
fn slice_at(
    ends: &[i64],
    values: &[i64],
    first: usize,
    start: i64,
    stop: i64,
    out_ends: &mut [i64],
    out_values: &mut [i64],
) -> usize
    requires { SliceAt ends.now values.now first start stop out_ends.old out_values.old }
    ensures { Fills (slice_runs start stop (runs_of ends.now values.now)) out_ends out_values result }
{
    let interval = search::clamped(ends, start, stop);
    let from = interval.start;
    let to = interval.end;
    if to <= from {
        return 0;
    }
    let mut n: usize = 0;
    loop {
        let end = ends[first + n];
        out_ends[n] = num::smaller(end, to) - from;
        out_values[n] = values[first + n];
        n += 1;
        if to <= end {
            return n;
        }
    }
}

// The slice of each interval, after those of the intervals before it.
pub fn getitems(
    ends: &[i64],
    values: &[i64],
    starts: &[i64],
    stops: &[i64],
    out_offsets: &mut [usize],
    out_ends: &mut [i64],
    out_values: &mut [i64],
) -> usize
    requires { Gettable
        (sequence ends.now values.now) starts.now stops.now out_offsets.old out_ends.old out_values.old }
    ensures { FillsFlat
        (interval_runs starts.now stops.now (runs_of ends.now values.now)) out_offsets out_ends out_values result }
{
    out_offsets[0] = 0;
    let mut firsts = [0usize; searches::BLOCK];
    let mut used: usize = 0;
    for i in 0..starts.len() {
        let start = starts[i];
        let stop = stops[i];
        let first = searches::find_next(ends, starts, i, 0, &mut firsts);
        used += slice_at(
            ends,
            values,
            first,
            start,
            stop,
            &mut out_ends[used..],
            &mut out_values[used..],
        );
        out_offsets[i + 1] = used;
    }
    used
}

// The reduction of the slice of each interval.
pub fn slice_reduce(
    ends: &[i64],
    values: &[i64],
    starts: &[i64],
    stops: &[i64],
    code: u8,
    ddof: i64,
    out_kinds: &mut [u8],
    out_bits: &mut [u64],
) -> usize
    requires { Reducible (sequence ends.now values.now) starts.now stops.now out_kinds.old out_bits.old }
    ensures { FilledReductions
        (map (reduction code ddof) (interval_runs starts.now stops.now (runs_of ends.now values.now)))
        out_kinds.old out_kinds.new out_bits.old out_bits.new result }
{
    for i in 0..starts.len() {
        let start = starts[i];
        let stop = stops[i];
        let reduction = reduce::inner::reduce_slice(ends, values, start, stop, code, ddof);
        out_kinds[i] = reduce::inner::kind(reduction);
        out_bits[i] = reduce::inner::bits(reduction);
    }
    starts.len()
}
