// Workers that assume what the call has asked, and the walk over the segments of many columns. The ends are valid.
ghost use Rattle.std.specs.Prelude.{◌+◌, ◌*◌, ◌-◌, ◌≤◌, ◌<◌, ◌++◌, map, ◌≡◌, length, get_or, take, drop};
ghost use Rattle.column.specs.Lists.{part, parts};
ghost use Rattle.column.specs.Runs.{to_nat, length_of_ends, over};
ghost use Rattle.plan.specs.Calls.{segments};
ghost use Rattle.plan.specs.Workers.{spent};
ghost use Rattle.many.specs.Workers.{Placed, Paired, Readable, ColumnRead, Kept, ColumnPlaced, ColumnStepped, Stepped, Walkable, Plannable, PlanManyFilled};

use crate::Planned;
use column::sequence;
use plan::inner::{SPENT, end_at};

// The length of column c.
pub fn length_at(offsets: &[usize], ends: &[i64], c: usize) -> i64
    requires { c + 1 < length offsets.now }
    ensures { result ≡ length_of_ends (part (get_or offsets.now c 0) (get_or offsets.now (c + 1) 0) ends.now) }
{
    let from = offsets[c];
    let to = offsets[c + 1];
    sequence::length(sequence::part(ends, from, to))
}

// The end of column c's run at a place, and its value, read into `current` and `shown`: `SPENT` and the fill where the column is spent
// there. The end.
fn read_column(
    offsets: &[usize],
    ends: &[i64],
    values: &[i64],
    fill: i64,
    c: usize,
    place: usize,
    current: &mut [usize],
    shown: &mut [i64],
) -> usize
    requires { Readable offsets.now ends.now values.now c current.old shown.old }
    ensures { ColumnRead offsets.now ends.now values.now fill c place current.old current.new shown.old shown.new result }
{
    let from = offsets[c];
    let to = offsets[c + 1];
    let end = end_at(&ends[from..to], place);
    current[c] = end;
    shown[c] = sequence::entry_or(&values[from..to], place, fill);
    end
}

// The end and the value of each column's run where it stands, read into `current` and `shown`.
pub fn read_current(
    offsets: &[usize],
    ends: &[i64],
    values: &[i64],
    fill: i64,
    places: &[usize],
    current: &mut [usize],
    shown: &mut [i64],
)
    requires { Placed offsets.now ends.now places.now × Paired ends.now values.now places.now current.old shown.old }
    ensures { Kept offsets.now ends.now values.now fill places.now current.new shown.new (length places.now) }
{
    for c in 0..places.len() {
        read_column(offsets, ends, values, fill, c, places[c], current, shown);
    }
}

// Column c goes on to its next run if its current one ends at `start`. Where its current run ends then.
fn step_column(
    offsets: &[usize],
    ends: &[i64],
    values: &[i64],
    fill: i64,
    c: usize,
    start: usize,
    places: &mut [usize],
    current: &mut [usize],
    shown: &mut [i64],
) -> usize
    requires { ColumnPlaced offsets.now ends.now places.old c × (c < length places.old)
        × (length ends.now ≡ length values.now)
        × Kept offsets.now ends.now values.now fill places.old current.old shown.old (length places.old) }
    ensures { ColumnStepped offsets.now
        ends.now values.now fill c start places.old places.new current.old current.new shown.new result }
{
    let end = current[c];
    if end != start {
        return end;
    }
    let place = places[c] + 1;
    places[c] = place;
    read_column(offsets, ends, values, fill, c, place, current, shown)
}

// Each column whose current run ends at `start` goes on to its next one. The least of the ends of the runs that are current then, or
// `SPENT`. What a column shows is kept beside its place: of many columns few go on, and only those are looked up.
pub fn step(
    offsets: &[usize],
    ends: &[i64],
    values: &[i64],
    fill: i64,
    start: usize,
    places: &mut [usize],
    current: &mut [usize],
    shown: &mut [i64],
) -> usize
    requires { Placed offsets.now ends.now places.old × (length ends.now ≡ length values.now)
        × Kept offsets.now ends.now values.now fill places.old current.old shown.old (length places.old) × (start < spent) }
    ensures { Stepped offsets.now ends.now start places.old places.new
        result × Kept offsets.now ends.now values.now fill places.new current.new shown.new (length places.new) }
{
    let mut least = SPENT;
    for c in 0..places.len() {
        let end = step_column(
            offsets, ends, values, fill, c, start, places, current, shown,
        );
        least = num::smaller_count(least, end);
    }
    least
}

// The places, written from `at` on; the index after them.
fn put_places(places: &[usize], out: &mut [usize], at: usize) -> usize
    requires { at + length places.now ≤ length out.old }
    ensures { (result ≡ at + length places.now) × (out.new ≡ take at out.old ++ over places.now (drop at out.old)) }
{
    for c in 0..places.len() {
        let place = places[c];
        out[at + c] = place;
    }
    at + places.len()
}

// The segments, with the columns' places in a lent buffer.
fn plan_walk(
    offsets: &[usize],
    ends: &[i64],
    values: &[i64],
    places: &mut [usize],
    current: &mut [usize],
    shown: &mut [i64],
    out_ends: &mut [i64],
    out_idx: &mut [usize],
) -> Planned
    requires { Walkable offsets.now ends.now places.old × Paired ends.now values.now places.old current.old shown.old
        × (length ends.now ≤ length out_ends.old) × (length ends.now * (length offsets.now - 1) ≤ length out_idx.old) }
    ensures { PlanManyFilled (segments (map (map to_nat) (parts offsets.now ends.now)))
        out_ends.old out_ends.new out_idx.old out_idx.new result }
{
    let mut n: usize = 0;
    let mut m: usize = 0;
    read_current(offsets, ends, values, 0, places, current, shown);
    let mut end = step(offsets, ends, values, 0, 0, places, current, shown);
    while end < SPENT {
        out_ends[n] = end as i64;
        n += 1;
        m = put_places(places, out_idx, m);
        end = step(offsets, ends, values, 0, end, places, current, shown);
    }
    Planned {
        segments: n,
        indexes: m,
    }
}

pub fn plan_many(
    offsets: &[usize],
    ends: &[i64],
    values: &[i64],
    out_ends: &mut [i64],
    out_idx: &mut [usize],
) -> Planned
    requires { Plannable offsets.now ends.now values.now out_ends.old out_idx.old }
    ensures { PlanManyFilled (segments (map (map to_nat) (parts offsets.now ends.now)))
        out_ends.old out_ends.new out_idx.old out_idx.new result }
{
    let k = offsets.len() - 1;
    let mut places = [0usize; rle::Rle::MAX_COLUMNS];
    let mut current = [0usize; rle::Rle::MAX_COLUMNS];
    let mut shown = [0i64; rle::Rle::MAX_COLUMNS];
    plan_walk(
        offsets,
        ends,
        values,
        &mut places[..k],
        &mut current[..k],
        &mut shown[..k],
        out_ends,
        out_idx,
    )
}
