// Workers that assume what the calls have asked.
pub mod search;

ghost use Rattle.std.specs.Prelude.{◌≡◌, ◌+◌, ◌/◌, ◌^◌, ◌<◌, ◌≤◌, false, pos, if◌then◌else◌, int_lt, nat_eq};
ghost use Rattle.column.specs.Runs.{runs_of, Fills};
ghost use Rattle.slice.specs.Workers.{Halving, cut_runs, Touches};

use search::TouchedRuns;

// The least number of 64 bits whose top bit is set.
const TOP: u64 = 0x8000_0000_0000_0000;

// 1 if the end is above the position, else 0, where neither is negative: the top bit of their difference. A test of the two becomes a
// branch, which half of the steps of a search would mispredict.
fn is_above(end: i64, position: u64) -> usize
    ensures { (result ≤ 1) × (int_lt end (pos 0) ≡ false → position < 2 ^ 63 → result ≡ (if int_lt (pos position) end then 1 else 0)) }
{
    let difference = std::num::wrapping_sub_u64(position, num::as_unsigned(end));
    (difference / TOP) as usize
}

// Where the search goes on: `step` further, unless the end there is above the position. Nothing is left of a step that is shifted by 63; a
// product or a choice would become a branch again.
fn low_after(low: usize, step: usize, above: usize) -> usize
    requires { (above ≤ 1) × (low + step < 2 ^ 63) }
    ensures { result ≡ (if nat_eq above 0 then low + step else low) }
{
    low + (step >> (above * 63))
}

// Where the search for a position goes on: of `size` ends from `low`, the half is left either way, so that nothing but the number of ends
// decides how many steps there are.
pub fn half(ends: &[i64], low: usize, size: usize, position: usize) -> usize
    requires { Halving position ends.now low size × (0 < size) × (position < 2 ^ 63) }
    ensures { Halving position ends.now result (size / 2) }
{
    let step = size - size / 2;
    let end = ends[low + step - 1];
    low_after(low, step, is_above(end, position as u64))
}

// The touched runs, ends less the start, the last cut to the end.
pub fn slice(
    ends: &[i64],
    values: &[i64],
    touched: TouchedRuns,
    out_ends: &mut [i64],
    out_values: &mut [i64],
) -> usize
    requires { Touches touched ends.now values.now out_ends.old out_values.old }
    ensures { Fills (cut_runs touched (runs_of ends.now values.now)) out_ends out_values result }
{
    let first = touched.first;
    let count = touched.count;
    let start = touched.start;
    let to = touched.end;
    for n in 0..count {
        let end = ends[first + n];
        let value = values[first + n];
        out_ends[n] = num::smaller(end, to) - start;
        out_values[n] = value;
    }
    count
}
