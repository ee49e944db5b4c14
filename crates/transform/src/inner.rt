// Workers that assume what the calls have asked.
ghost use Rattle.std.specs.Prelude.{ℕ, ◌+◌, ◌≤◌, ◌<◌, [], ◌∷◌, ◌++◌, map, reverse, ◌≡◌, ℤ, pos, length, get_or, None};
ghost use Rattle.column.specs.Flat.{flat, columns};
ghost use Rattle.column.specs.Questions.{ends_valid};
ghost use Rattle.column.specs.Runs.{runs_of, encode, over, Fills};
ghost use Rattle.transform.specs.Calls.{shown, reverse_runs};
ghost use Rattle.transform.specs.Workers.{Joinable, Makes, turned_ends, JoinableTwo};

use column::inner::Writer;
use column::sequence;

// One sequence after another.
pub fn concat(
    offsets: &[usize],
    ends: &[i64],
    values: &[i64],
    out_ends: &mut [i64],
    out_values: &mut [i64],
) -> usize
    requires { Joinable (flat offsets.now ends.now values.now) out_ends.old out_values.old }
    ensures { Fills (encode (shown (columns (flat offsets.now ends.now values.now)))) out_ends out_values result }
{
    if ends.len() == 0 {
        return 0;
    }
    let first = values[0];
    let mut writer = Writer { at: 0, last: first };
    let mut offset: usize = 0;
    for k in 0..sequence::count(offsets) {
        let from = offsets[k];
        let to = offsets[k + 1];
        let part = sequence::part(ends, from, to);
        let shown = sequence::part(values, from, to);
        writer = column::inner::append_merged(writer, part, shown, 0, offset, out_ends, out_values);
        offset += sequence::to_nat(sequence::length(part));
    }
    writer.at + 1
}

// What `f` makes of the entries, from the last to the first.
fn turn<F: Fn(i64) -> i64>(entries: &[i64], out: &mut [i64], f: F)
    requires room { length entries.now ≤ length out.old }
    requires made { (i : ℕ) → i < length entries.now → F.pre f (get_or entries.now i (pos 0)) }
    ensures { (g : ℤ → ℤ) → Makes (F.post f) g entries.now → out.new ≡ over (reverse (map g entries.now)) out.old }
{
    let n = entries.len();
    for t in 0..n {
        out[t] = f(entries[n - 1 - t]);
    }
}

// The ends of the runs from last to first: how far it is from each run's start to the length.
fn reverse_ends(ends: &[i64], out_ends: &mut [i64])
    requires { (ends_valid ends.now ≡ None) × (0 < length ends.now) × (length ends.now ≤ length out_ends.old) }
    ensures { out_ends.new ≡ over (turned_ends ends.now) out_ends.old }
{
    let last = ends.len() - 1;
    let length = ends[last];
    turn(&ends[..last], out_ends, |start| length - start);
    out_ends[last] = length;
}

// The runs from last to first. Two loops of two lists each take less time than one of four: memory is what binds them.
pub fn reversed(ends: &[i64], values: &[i64], out_ends: &mut [i64], out_values: &mut [i64]) -> usize
    requires { (ends_valid ends.now ≡ None) × (length ends.now ≡ length values.now)
        × (length ends.now ≤ length out_ends.old) × (length ends.now ≤ length out_values.old) }
    ensures { Fills (reverse_runs (runs_of ends.now values.now)) out_ends out_values result }
{
    if ends.len() == 0 {
        return 0;
    }
    reverse_ends(ends, out_ends);
    turn(values, out_values, |value| value);
    ends.len()
}

// The first value of two sequences, one of which has one.
fn first_value(a_values: &[i64], b_values: &[i64]) -> i64
    requires { 0 < length a_values.now + length b_values.now }
    ensures { result ≡ get_or (a_values.now ++ b_values.now) 0 (pos 0) }
{
    if a_values.len() == 0 {
        return b_values[0];
    }
    a_values[0]
}

// One sequence after another, merged.
pub fn concat_two(
    a_ends: &[i64],
    a_values: &[i64],
    b_ends: &[i64],
    b_values: &[i64],
    out_ends: &mut [i64],
    out_values: &mut [i64],
) -> usize
    requires { JoinableTwo a_ends.now a_values.now b_ends.now b_values.now out_ends.old out_values.old }
    ensures { Fills (encode (shown (runs_of a_ends.now a_values.now ∷ runs_of b_ends.now b_values.now ∷ [])))
        out_ends out_values result }
{
    if a_ends.len() + b_ends.len() == 0 {
        return 0;
    }
    let first = first_value(a_values, b_values);
    let start = Writer { at: 0, last: first };
    let after_first = column::inner::append_merged(
        start, a_ends, a_values, 0, 0, out_ends, out_values,
    );
    let length = sequence::to_nat(sequence::length(a_ends));
    let last = column::inner::append_merged(
        after_first,
        b_ends,
        b_values,
        0,
        length,
        out_ends,
        out_values,
    );
    last.at + 1
}
