// Workers that assume what the calls have asked.
ghost use Rattle.std.specs.Prelude.{◌+◌, ◌-◌, ◌≤◌, ◌<◌, ◌^◌, true, cond, ◌++◌, ◌≡◌, length, take, drop, replicate, None};
ghost use Rattle.num.specs.Numbers.{eq_z};
ghost use Rattle.column.specs.Questions.{ends_valid};
ghost use Rattle.column.specs.Runs.{runs_of, dense, encode, over, Fills};
ghost use Rattle.dense.specs.Workers.{Constant, Encoded, Encodable};

use column::inner::Writer;

// As many values are compared at once: so many that short runs never fill a block, and the branch on it is predicted.
const BLOCK: usize = 32;

// One more if the values are equal.
fn count_if_equal(count: usize, x: i64, y: i64) -> usize
    requires { count + 1 < 2 ^ 64 }
    ensures { result ≡ cond (eq_z x y) (count + 1) count }
{
    if x == y { count + 1 } else { count }
}

// It counts, as that becomes vector instructions, where a conjunction becomes a branch for each value.
fn all_equal(values: &[i64], from: usize, to: usize, value: i64) -> bool
    requires { (from ≤ to) × (to ≤ length values.now) }
    ensures { result ≡ true → Constant values.now from to value }
{
    let mut count: usize = 0;
    for i in from..to {
        let x = values[i];
        count = count_if_equal(count, x, value);
    }
    count == to - from
}

// The values from `from` up to `to`, one by one, with no branch on them.
fn push_values(
    writer: Writer,
    values: &[i64],
    from: usize,
    to: usize,
    out_ends: &mut [i64],
    out_values: &mut [i64],
) -> Writer
    requires { Encodable values.now out_ends.old out_values.old writer from to }
    ensures { Encoded values.now out_ends.old out_ends.new out_values.old out_values.new result to }
{
    let mut next = writer;
    for i in from..to {
        let value = values[i];
        next = column::inner::push_merged(next, out_ends, out_values, (i + 1) as i64, value);
    }
    next
}

// The same, in one step where all of them go on with the last run.
fn push_block(
    writer: Writer,
    values: &[i64],
    from: usize,
    to: usize,
    out_ends: &mut [i64],
    out_values: &mut [i64],
) -> Writer
    requires { (from < to) × Encodable values.now out_ends.old out_values.old writer from to }
    ensures { Encoded values.now out_ends.old out_ends.new out_values.old out_values.new result to }
{
    let last = writer.last;
    if all_equal(values, from, to, last) {
        column::inner::push_merged(writer, out_ends, out_values, to as i64, last)
    } else {
        push_values(writer, values, from, to, out_ends, out_values)
    }
}

// The merged runs of values.
pub fn from_dense(values: &[i64], out_ends: &mut [i64], out_values: &mut [i64]) -> usize
    requires { (length values.now ≤ length out_ends.old) × (length values.now ≤ length out_values.old) }
    ensures { Fills (encode values.now) out_ends out_values result }
{
    if values.len() == 0 {
        return 0;
    }
    let first = values[0];
    let mut writer = Writer { at: 0, last: first };
    let blocks = values.len() / BLOCK;
    for block in 0..blocks {
        let from = block * BLOCK;
        writer = push_block(writer, values, from, from + BLOCK, out_ends, out_values);
    }
    let end = push_values(
        writer,
        values,
        blocks * BLOCK,
        values.len(),
        out_ends,
        out_values,
    );
    end.at + 1
}

// The entries from `from` up to `to` set to a value.
fn fill(out: &mut [i64], from: usize, to: usize, value: i64)
    requires { (from ≤ to) × (to ≤ length out.old) }
    ensures { out.new ≡ take from out.old ++ replicate (to - from) value ++ drop to out.old }
{
    for p in from..to {
        out[p] = value;
    }
}

// What a sequence shows, position by position.
pub fn to_dense(ends: &[i64], values: &[i64], out: &mut [i64]) -> usize
    requires { (ends_valid ends.now ≡ None) × (length ends.now ≡ length values.now)
        × (length (dense (runs_of ends.now values.now)) ≤ length out.old) }
    ensures { (result ≡ length (dense (runs_of ends.now values.now)))
        × (out.new ≡ over (dense (runs_of ends.now values.now)) out.old) }
{
    let mut p: usize = 0;
    for r in 0..ends.len() {
        let end = ends[r];
        let to = end as usize;
        let value = values[r];
        fill(out, p, to, value);
        p = to;
    }
    p
}
