#![tactic(auto)]

// Calls on a sequence that take intervals.
pub mod inner;

ghost use Rattle.std.specs.Prelude.{◌<◌, ◌^◌, length, [], ◌∷◌, ◌≡◌, None};
ghost use Rattle.column.specs.Asking.{shown_asked};
ghost use Rattle.column.specs.Flat.{WritesFlat};
ghost use Rattle.column.specs.Lists.{total};
ghost use Rattle.column.specs.Questions.{ends_valid};
ghost use Rattle.column.specs.Runs.{sequence};
ghost use Rattle.num.specs.Numbers.{saturated};
ghost use Rattle.reduce.specs.Calls.{WritesReductions};
ghost use Rattle.getitems.specs.Calls as calls;
ghost use Rattle.getitems.specs.Workers.{interval_counts};

use column::answer::RleBatch;
use column::error::Refusal;
use inner::searches;

// How many runs the slices of all intervals have, saturating at usize::MAX.
fn count_runs(ends: &[i64], starts: &[i64], stops: &[i64]) -> usize
    ensures { ends_valid ends.now ≡ None →
        length starts.now ≡ length stops.now → result ≡ saturated (total (interval_counts starts.now stops.now ends.now)) }
{
    if starts.len() != stops.len() {
        return 0;
    }
    let mut firsts = [0usize; searches::BLOCK];
    let mut lasts = [0usize; searches::BLOCK];
    let mut total: usize = 0;
    for i in 0..starts.len() {
        let start = starts[i];
        let stop = stops[i];
        let first = searches::find_next(ends, starts, i, 0, &mut firsts);
        let last = searches::find_next(ends, stops, i, 1, &mut lasts);
        let count = inner::count_at(ends, start, stop, first, last);
        total = num::saturating_add(total, count);
    }
    total
}

fn getitems_asks(
    ends: &[i64],
    values: &[i64],
    starts: &[i64],
    stops: &[i64],
    out_offsets: usize,
    out_ends: usize,
    out_values: usize,
) -> Result<(), Refusal>
    ensures { out_ends < 2 ^ 63 → out_values < 2 ^ 63 → shown_asked result
        ≡ calls.getitems_asked (sequence ends.now values.now) starts.now stops.now (out_offsets ∷ out_ends ∷ out_values ∷ []) }
{
    questions::ask_lengths(3, ends.len(), values.len())?;
    questions::ask_lengths(8, starts.len(), stops.len())?;
    questions::ask_ends(ends)?;
    questions::ask_intervals(starts, stops)?;
    let runs = count_runs(ends, starts, stops);
    questions::ask_flat_room(starts.len() + 1, runs, out_offsets, out_ends, out_values)
}

// The slices of many intervals, laid flat.
pub fn getitems(
    ends: &[i64],
    values: &[i64],
    starts: &[i64],
    stops: &[i64],
    out_offsets: &mut [usize],
    out_ends: &mut [i64],
    out_values: &mut [i64],
) -> Result<RleBatch, Refusal>
    ensures { WritesFlat (calls.getitems (sequence ends.now values.now) starts.now stops.now) out_offsets out_ends out_values result }
{
    getitems_asks(
        ends,
        values,
        starts,
        stops,
        out_offsets.len(),
        out_ends.len(),
        out_values.len(),
    )?;
    let runs = inner::getitems(
        ends,
        values,
        starts,
        stops,
        out_offsets,
        out_ends,
        out_values,
    );
    Ok(RleBatch {
        keys: starts.len(),
        runs,
    })
}

fn slice_reduce_asks(
    ends: &[i64],
    values: &[i64],
    starts: &[i64],
    stops: &[i64],
    code: u8,
    out_kinds: usize,
    out_bits: usize,
) -> Result<(), Refusal>
    ensures { shown_asked
        result ≡ calls.slice_reduce_asked (sequence ends.now values.now) starts.now stops.now code (out_kinds ∷ out_bits ∷ []) }
{
    questions::ask_code(0, 2, code)?;
    questions::ask_lengths(3, ends.len(), values.len())?;
    questions::ask_lengths(8, starts.len(), stops.len())?;
    questions::ask_ends(ends)?;
    questions::ask_intervals(starts, stops)?;
    questions::ask_both(starts.len(), out_kinds, out_bits)
}

// The sum, mean or variance of the slice of each interval, by code: kind bytes, and 64 bits for each.
pub fn slice_reduce(
    ends: &[i64],
    values: &[i64],
    starts: &[i64],
    stops: &[i64],
    code: u8,
    ddof: i64,
    out_kinds: &mut [u8],
    out_bits: &mut [u64],
) -> Result<usize, Refusal>
    ensures { WritesReductions (calls.slice_reduce (sequence ends.now values.now) starts.now stops.now code ddof) out_kinds out_bits result }
{
    slice_reduce_asks(
        ends,
        values,
        starts,
        stops,
        code,
        out_kinds.len(),
        out_bits.len(),
    )?;
    let n = inner::slice_reduce(ends, values, starts, stops, code, ddof, out_kinds, out_bits);
    Ok(n)
}
