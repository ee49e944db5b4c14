#![tactic(auto)]

// The calls for C, which runlength_c exports: each hands on what the Rattle call answers, laid flat.
ghost use Rattle.std.specs.Prelude.{◌*◌, ◌≡◌, length};
ghost use Rattle.batch.specs.Batch.{batch, WritesBatch};
ghost use Rattle.batch.specs.Calls as batches;
ghost use Rattle.batch.specs.Calls.{WritesGot};
ghost use Rattle.batch_collapse.specs.Calls as batch-collapse;
ghost use Rattle.batch_collapse.specs.Calls.{WritesCollapse};
ghost use Rattle.batch_concat.specs.Calls as batch-concat;
ghost use Rattle.batch_getitems.specs.Calls as batch-getitems;
ghost use Rattle.batch_keys.specs.Calls as batch-keys;
ghost use Rattle.batch_map_rles.specs.Calls as batch-map-rles;
ghost use Rattle.batch_slice_reduce.specs.Calls as batch-slice-reduce;
ghost use Rattle.batch_zip_with.specs.Calls as batch-zip-with;
ghost use Rattle.column.specs.Flat.{flat, WritesFlat};
ghost use Rattle.column.specs.Paper.{WritesRuns, WritesEntries};
ghost use Rattle.column.specs.Runs.{sequence};
ghost use Rattle.dense.specs.Calls as dense;
ghost use Rattle.equals.specs.Calls as equals;
ghost use Rattle.ffi.specs.Reading.{read_fill, LaidCheck, LaidEquality, LaidFound, LaidViewed, LaidSum, LaidReduced, LaidPart, LaidGot, LaidCounted};
ghost use Rattle.ffi.specs.Reading.{LaidPlannedMany, LaidBatched};
ghost use Rattle.from_runs.specs.Calls as from-runs;
ghost use Rattle.getitems.specs.Calls as getitems;
ghost use Rattle.many.specs.Calls as many;
ghost use Rattle.many.specs.Calls.{WritesPlanMany};
ghost use Rattle.merge.specs.Calls as merge;
ghost use Rattle.merge_mask.specs.Calls as merge-mask;
ghost use Rattle.merge_plan.specs.Calls as merge-plan;
ghost use Rattle.merge_plan.specs.Calls.{WritesGroups};
ghost use Rattle.ops.specs.Calls as ops;
ghost use Rattle.plan.specs.Calls as plan;
ghost use Rattle.plan.specs.Calls.{WritesPlan};
ghost use Rattle.ranges_where.specs.Calls as ranges-where;
ghost use Rattle.ranges_where.specs.Calls.{WritesRanges};
ghost use Rattle.reduce.specs.Calls as reduce;
ghost use Rattle.reduce.specs.Calls.{WritesReductions};
ghost use Rattle.rle.specs.Calls as rle;
ghost use Rattle.shift.specs.Calls as shift;
ghost use Rattle.slice.specs.Calls as slice;
ghost use Rattle.transform.specs.Calls as transform;
ghost use Rattle.zip_many.specs.Calls as zip-many;

use ffi::{
    RlBatched, RlCounted, RlEquality, RlFill, RlFound, RlGot, RlPart, RlPlannedMany, RlReduced,
    RlRefusal, RlRle, RlSummed, RlViewed,
};
use rle::Rle;

pub fn rl_empty() -> RlRle
    ensures { result.runs ≡ 0 }
{
    RlRle {
        runs: Rle::empty().runs,
    }
}

pub fn rl_from_runs(
    runs: &[i64],
    values: &[i64],
    out_ends: &mut [i64],
    out_values: &mut [i64],
) -> RlCounted
    ensures { LaidCounted (WritesRuns (from-runs.from_runs runs.now values.now) out_ends out_values) result }
{
    RlCounted::from(from_runs::from_runs(runs, values, out_ends, out_values))
}

pub fn rl_from_ends(ends: &[i64], values: &[i64]) -> RlRefusal
    ensures { LaidCheck (from-runs.from_ends (sequence ends.now values.now)) result }
{
    RlRefusal::from(from_runs::from_ends(ends, values))
}

pub fn rl_repeat(value: i64, length: i64, out_ends: &mut [i64], out_values: &mut [i64]) -> RlCounted
    ensures { LaidCounted (WritesRuns (from-runs.repeat value length) out_ends out_values) result }
{
    RlCounted::from(from_runs::repeat(value, length, out_ends, out_values))
}

pub fn rl_push_run(
    ends: &mut [i64],
    values: &mut [i64],
    used: usize,
    run: i64,
    value: i64,
) -> RlCounted
    ensures { LaidCounted (WritesRuns (λ _. rle.push_run (sequence ends.old values.old) used run value) ends values) result }
{
    RlCounted::from(Rle { runs: used }.push_run(ends, values, run, value))
}

pub fn rl_extend_to(
    ends: &mut [i64],
    values: &mut [i64],
    used: usize,
    length: i64,
    value: i64,
) -> RlCounted
    ensures { LaidCounted (WritesRuns (λ _. rle.extend_to (sequence ends.old values.old) used length value) ends values) result }
{
    RlCounted::from(Rle { runs: used }.extend_to(ends, values, length, value))
}

pub fn rl_from_dense(values: &[i64], out_ends: &mut [i64], out_values: &mut [i64]) -> RlCounted
    ensures { LaidCounted (WritesRuns (dense.from_dense values.now) out_ends out_values) result }
{
    RlCounted::from(dense::from_dense(values, out_ends, out_values))
}

pub fn rl_to_dense(ends: &[i64], values: &[i64], out: &mut [i64]) -> RlCounted
    ensures { LaidCounted (WritesEntries (dense.to_dense (sequence ends.now values.now)) out) result }
{
    RlCounted::from(dense::to_dense(ends, values, out))
}

pub fn rl_equals(a_ends: &[i64], a_values: &[i64], b_ends: &[i64], b_values: &[i64]) -> RlEquality
    ensures { LaidEquality (equals.equals (sequence a_ends.now a_values.now) (sequence b_ends.now b_values.now)) result }
{
    RlEquality::from(equals::equals(a_ends, a_values, b_ends, b_values))
}

pub fn rl_plan(
    a: &[i64],
    b: &[i64],
    out_ends: &mut [i64],
    out_idx_a: &mut [usize],
    out_idx_b: &mut [usize],
) -> RlCounted
    ensures { LaidCounted (WritesPlan (plan.plan a.now b.now) out_ends out_idx_a out_idx_b) result }
{
    RlCounted::from(plan::plan(a, b, out_ends, out_idx_a, out_idx_b))
}

pub fn rl_zip_with(
    a_ends: &[i64],
    a_values: &[i64],
    b_ends: &[i64],
    b_values: &[i64],
    fill_a: RlFill,
    fill_b: RlFill,
    code: u8,
    out_ends: &mut [i64],
    out_values: &mut [i64],
) -> RlCounted
    ensures { LaidCounted
        (WritesRuns (ops.zip_with (sequence a_ends.now a_values.now)
        (sequence b_ends.now b_values.now) (read_fill fill_a) (read_fill fill_b) code) out_ends out_values) result }
{
    RlCounted::from(ops::zip_with(
        a_ends,
        a_values,
        b_ends,
        b_values,
        ffi::fill(fill_a),
        ffi::fill(fill_b),
        code,
        out_ends,
        out_values,
    ))
}

pub fn rl_zip_with_raw(
    a_ends: &[i64],
    a_values: &[i64],
    b_ends: &[i64],
    b_values: &[i64],
    fill_a: RlFill,
    fill_b: RlFill,
    code: u8,
    out_ends: &mut [i64],
    out_values: &mut [i64],
) -> RlCounted
    ensures { LaidCounted
        (WritesRuns (ops.zip_with_raw (sequence a_ends.now a_values.now)
        (sequence b_ends.now b_values.now) (read_fill fill_a) (read_fill fill_b) code) out_ends out_values) result }
{
    RlCounted::from(ops::zip_with_raw(
        a_ends,
        a_values,
        b_ends,
        b_values,
        ffi::fill(fill_a),
        ffi::fill(fill_b),
        code,
        out_ends,
        out_values,
    ))
}

pub fn rl_plan_many(
    offsets: &[usize],
    ends: &[i64],
    values: &[i64],
    out_ends: &mut [i64],
    out_idx: &mut [usize],
) -> RlPlannedMany
    ensures { LaidPlannedMany (WritesPlanMany (many.plan_many (flat offsets.now ends.now values.now)) out_ends out_idx) result }
{
    RlPlannedMany::from(many::plan_many(offsets, ends, values, out_ends, out_idx))
}

pub fn rl_zip_many(
    offsets: &[usize],
    ends: &[i64],
    values: &[i64],
    fill: RlFill,
    code: u8,
    out_ends: &mut [i64],
    out_values: &mut [i64],
) -> RlCounted
    ensures { LaidCounted (WritesRuns (zip-many.zip_many (flat offsets.now ends.now values.now) (read_fill fill) code) out_ends out_values) result }
{
    RlCounted::from(zip_many::zip_many(
        offsets,
        ends,
        values,
        ffi::fill(fill),
        code,
        out_ends,
        out_values,
    ))
}

pub fn rl_run_index(ends: &[i64], pos: i64) -> RlFound
    ensures { LaidFound (slice.run_index ends.now pos) result }
{
    RlFound::from(slice::run_index(ends, pos))
}

pub fn rl_slice(
    ends: &[i64],
    values: &[i64],
    start: i64,
    end: i64,
    out_ends: &mut [i64],
    out_values: &mut [i64],
) -> RlCounted
    ensures { LaidCounted (WritesRuns (slice.slice (sequence ends.now values.now) start end) out_ends out_values) result }
{
    RlCounted::from(slice::slice(ends, values, start, end, out_ends, out_values))
}

pub fn rl_slice_view(ends: &[i64], values: &[i64], start: i64, end: i64) -> RlViewed
    ensures { LaidViewed (slice.slice_view (sequence ends.now values.now) start end) result }
{
    RlViewed::from(slice::slice_view(ends, values, start, end))
}

pub fn rl_slice_view_values(ends: &[i64], values: &[i64], start: i64, end: i64) -> RlPart
    ensures { LaidPart result (slice.slice_part (sequence ends.now values.now) start end) values.now }
{
    RlPart::from(slice::slice_view_part(ends, values, start, end))
}

pub fn rl_getitems(
    ends: &[i64],
    values: &[i64],
    starts: &[i64],
    stops: &[i64],
    out_offsets: &mut [usize],
    out_ends: &mut [i64],
    out_values: &mut [i64],
) -> RlBatched
    ensures { LaidBatched
        (WritesFlat (getitems.getitems (sequence ends.now values.now) starts.now stops.now) out_offsets out_ends out_values)
        result }
{
    RlBatched::from(getitems::getitems(
        ends,
        values,
        starts,
        stops,
        out_offsets,
        out_ends,
        out_values,
    ))
}

pub fn rl_concat(
    offsets: &[usize],
    ends: &[i64],
    values: &[i64],
    out_ends: &mut [i64],
    out_values: &mut [i64],
) -> RlCounted
    ensures { LaidCounted (WritesRuns (transform.concat (flat offsets.now ends.now values.now)) out_ends out_values) result }
{
    RlCounted::from(transform::concat(offsets, ends, values, out_ends, out_values))
}

pub fn rl_shift(
    ends: &[i64],
    values: &[i64],
    distance: i64,
    fill: i64,
    out_ends: &mut [i64],
    out_values: &mut [i64],
) -> RlCounted
    ensures { LaidCounted (WritesRuns (shift.shift (sequence ends.now values.now) distance fill) out_ends out_values) result }
{
    RlCounted::from(shift::shift(ends, values, distance, fill, out_ends, out_values))
}

pub fn rl_reversed(
    ends: &[i64],
    values: &[i64],
    out_ends: &mut [i64],
    out_values: &mut [i64],
) -> RlCounted
    ensures { LaidCounted (WritesRuns (transform.reversed (sequence ends.now values.now)) out_ends out_values) result }
{
    RlCounted::from(transform::reversed(ends, values, out_ends, out_values))
}

pub fn rl_ranges_where(
    ends: &[i64],
    values: &[i64],
    code: u8,
    number: i64,
    out_starts: &mut [i64],
    out_ends: &mut [i64],
) -> RlCounted
    ensures { LaidCounted (WritesRanges (ranges-where.ranges_where (sequence ends.now values.now) code number) out_starts out_ends) result }
{
    RlCounted::from(ranges_where::ranges_where(ends, values, code, number, out_starts, out_ends))
}

pub fn rl_merge(
    ends: &[i64],
    values: &[i64],
    out_ends: &mut [i64],
    out_values: &mut [i64],
) -> RlCounted
    ensures { LaidCounted (WritesRuns (merge.merged (sequence ends.now values.now)) out_ends out_values) result }
{
    RlCounted::from(merge::merge(ends, values, out_ends, out_values))
}

pub fn rl_merged(
    ends: &[i64],
    values: &[i64],
    out_ends: &mut [i64],
    out_values: &mut [i64],
) -> RlCounted
    ensures { LaidCounted (WritesRuns (merge.merged (sequence ends.now values.now)) out_ends out_values) result }
{
    RlCounted::from(merge::merged(ends, values, out_ends, out_values))
}

pub fn rl_merge_mask(
    ends: &[i64],
    values: &[i64],
    mask: &[u8],
    keep: u8,
    out_ends: &mut [i64],
    out_values: &mut [i64],
) -> RlCounted
    ensures { LaidCounted (WritesRuns (merge-mask.merge_mask (sequence ends.now values.now) mask.now keep) out_ends out_values) result }
{
    RlCounted::from(merge_mask::merge_mask(ends, values, mask, keep, out_ends, out_values))
}

pub fn rl_merge_by(
    ends: &[i64],
    values: &[i64],
    code: u8,
    out_ends: &mut [i64],
    out_values: &mut [i64],
) -> RlCounted
    ensures { LaidCounted (WritesRuns (merge-mask.merge_by (sequence ends.now values.now) code) out_ends out_values) result }
{
    RlCounted::from(merge_mask::merge_by(ends, values, code, out_ends, out_values))
}

pub fn rl_merge_plan(
    ends: &[i64],
    mask: &[u8],
    out_ends: &mut [i64],
    out_offsets: &mut [usize],
) -> RlCounted
    ensures { LaidCounted (WritesGroups (merge-plan.merge_plan ends.now mask.now) out_ends out_offsets) result }
{
    RlCounted::from(merge_plan::merge_plan(ends, mask, out_ends, out_offsets))
}

pub fn rl_group_ids(offsets: &[usize], out_ids: &mut [usize]) -> RlCounted
    ensures { LaidCounted (WritesEntries (merge-plan.group_ids offsets.now) out_ids) result }
{
    RlCounted::from(merge_plan::group_ids(offsets, out_ids))
}

pub fn rl_sum(ends: &[i64], values: &[i64]) -> RlSummed
    ensures { LaidSum (reduce.sum (sequence ends.now values.now)) result }
{
    RlSummed::from(reduce::sum(ends, values))
}

pub fn rl_reduce(ends: &[i64], values: &[i64], code: u8, ddof: i64) -> RlReduced
    ensures { LaidReduced (reduce.reduce (sequence ends.now values.now) code ddof) result }
{
    RlReduced::from(reduce::reduce(ends, values, code, ddof))
}

pub fn rl_slice_reduce(
    ends: &[i64],
    values: &[i64],
    starts: &[i64],
    stops: &[i64],
    code: u8,
    ddof: i64,
    out_kinds: &mut [u8],
    out_bits: &mut [u64],
) -> RlCounted
    ensures { LaidCounted
        (WritesReductions (getitems.slice_reduce (sequence ends.now values.now) starts.now stops.now code ddof) out_kinds out_bits)
        result }
{
    RlCounted::from(getitems::slice_reduce(
        ends, values, starts, stops, code, ddof, out_kinds, out_bits,
    ))
}

pub fn rl_batch_from_parts(
    keys: &[u32],
    offsets: &[usize],
    ends: &[i64],
    values: &[i64],
) -> RlRefusal
    ensures { LaidCheck (batches.from_parts (batch keys.now offsets.now ends.now values.now)) result }
{
    RlRefusal::from(batch::from_parts(keys, offsets, ends, values))
}

pub fn rl_batch_position(keys: &[u32], key: u32) -> RlFound
    ensures { LaidFound (batch-keys.position keys.now key) result }
{
    RlFound::from(batch_keys::position(keys, key))
}

pub fn rl_batch_get(
    keys: &[u32],
    offsets: &[usize],
    ends: &[i64],
    values: &[i64],
    key: u32,
    out_ends: &mut [i64],
    out_values: &mut [i64],
) -> RlGot
    ensures { LaidGot (WritesGot (batches.get (batch keys.now offsets.now ends.now values.now) key) out_ends out_values) result }
{
    RlGot::from(batch::get(keys, offsets, ends, values, key, out_ends, out_values))
}

pub fn rl_batch_getitems(
    keys: &[u32],
    offsets: &[usize],
    ends: &[i64],
    values: &[i64],
    get_keys: &[u32],
    starts: &[i64],
    stops: &[i64],
    out_offsets: &mut [usize],
    out_ends: &mut [i64],
    out_values: &mut [i64],
) -> RlBatched
    ensures { LaidBatched
        (WritesFlat (batch-getitems.getitems (batch keys.now offsets.now ends.now values.now) get_keys.now starts.now stops.now)
        out_offsets out_ends out_values) result }
{
    RlBatched::from(batch_getitems::getitems(
        keys,
        offsets,
        ends,
        values,
        get_keys,
        starts,
        stops,
        out_offsets,
        out_ends,
        out_values,
    ))
}

pub fn rl_batch_slice_reduce(
    keys: &[u32],
    offsets: &[usize],
    ends: &[i64],
    values: &[i64],
    get_keys: &[u32],
    starts: &[i64],
    stops: &[i64],
    code: u8,
    ddof: i64,
    out_kinds: &mut [u8],
    out_bits: &mut [u64],
) -> RlCounted
    ensures { LaidCounted
        (WritesReductions (batch-slice-reduce.slice_reduce
        (batch keys.now offsets.now ends.now values.now) get_keys.now starts.now stops.now code ddof) out_kinds out_bits) result }
{
    RlCounted::from(batch_slice_reduce::slice_reduce(
        keys, offsets, ends, values, get_keys, starts, stops, code, ddof, out_kinds, out_bits,
    ))
}

pub fn rl_batch_shift(
    keys: &[u32],
    offsets: &[usize],
    ends: &[i64],
    values: &[i64],
    distance: i64,
    fill: i64,
    out_keys: &mut [u32],
    out_offsets: &mut [usize],
    out_ends: &mut [i64],
    out_values: &mut [i64],
) -> RlBatched
    ensures { LaidBatched
        (WritesBatch (batch-map-rles.shift (batch keys.now offsets.now ends.now values.now) distance fill)
        out_keys out_offsets out_ends out_values) result }
{
    RlBatched::from(batch_map_rles::shift(
        keys,
        offsets,
        ends,
        values,
        distance,
        fill,
        out_keys,
        out_offsets,
        out_ends,
        out_values,
    ))
}

pub fn rl_batch_reversed(
    keys: &[u32],
    offsets: &[usize],
    ends: &[i64],
    values: &[i64],
    out_keys: &mut [u32],
    out_offsets: &mut [usize],
    out_ends: &mut [i64],
    out_values: &mut [i64],
) -> RlBatched
    ensures { LaidBatched
        (WritesBatch (batch-map-rles.reversed (batch keys.now offsets.now ends.now values.now)) out_keys out_offsets out_ends out_values) result }
{
    RlBatched::from(batch_map_rles::reversed(
        keys,
        offsets,
        ends,
        values,
        out_keys,
        out_offsets,
        out_ends,
        out_values,
    ))
}

pub fn rl_batch_map_rles_slice(
    keys: &[u32],
    offsets: &[usize],
    ends: &[i64],
    values: &[i64],
    start: i64,
    end: i64,
    out_keys: &mut [u32],
    out_offsets: &mut [usize],
    out_ends: &mut [i64],
    out_values: &mut [i64],
) -> RlBatched
    ensures { LaidBatched
        (WritesBatch (batch-map-rles.map_rles_slice (batch keys.now offsets.now ends.now values.now) start end)
        out_keys out_offsets out_ends out_values) result }
{
    RlBatched::from(batch_map_rles::map_rles_slice(
        keys,
        offsets,
        ends,
        values,
        start,
        end,
        out_keys,
        out_offsets,
        out_ends,
        out_values,
    ))
}

pub fn rl_batch_collapse(
    keys: &[u32],
    offsets: &[usize],
    ends: &[i64],
    values: &[i64],
    new_keys: &[u32],
    fill: RlFill,
    code: u8,
    out_keys: &mut [u32],
    out_offsets: &mut [usize],
    out_ends: &mut [i64],
    out_values: &mut [i64],
    scratch_ends: &mut [i64],
    scratch_values: &mut [i64],
) -> RlBatched
    ensures { LaidBatched
        (WritesCollapse (batch-collapse.collapse (batch keys.now offsets.now ends.now values.now) new_keys.now (read_fill fill) code)
        (2 * length ends.now) out_keys out_offsets out_ends out_values scratch_ends scratch_values) result }
{
    RlBatched::from(batch_collapse::collapse(
        keys,
        offsets,
        ends,
        values,
        new_keys,
        ffi::fill(fill),
        code,
        out_keys,
        out_offsets,
        out_ends,
        out_values,
        scratch_ends,
        scratch_values,
    ))
}

pub fn rl_batch_concat(
    a_keys: &[u32],
    a_offsets: &[usize],
    a_ends: &[i64],
    a_values: &[i64],
    b_keys: &[u32],
    b_offsets: &[usize],
    b_ends: &[i64],
    b_values: &[i64],
    out_keys: &mut [u32],
    out_offsets: &mut [usize],
    out_ends: &mut [i64],
    out_values: &mut [i64],
) -> RlBatched
    ensures { LaidBatched
        (WritesBatch (batch-concat.concat (batch a_keys.now a_offsets.now a_ends.now a_values.now)
        (batch b_keys.now b_offsets.now b_ends.now b_values.now)) out_keys out_offsets out_ends out_values) result }
{
    RlBatched::from(batch_concat::concat(
        a_keys,
        a_offsets,
        a_ends,
        a_values,
        b_keys,
        b_offsets,
        b_ends,
        b_values,
        out_keys,
        out_offsets,
        out_ends,
        out_values,
    ))
}

pub fn rl_batch_zip_with(
    a_keys: &[u32],
    a_offsets: &[usize],
    a_ends: &[i64],
    a_values: &[i64],
    b_keys: &[u32],
    b_offsets: &[usize],
    b_ends: &[i64],
    b_values: &[i64],
    how: u8,
    fill_a: RlFill,
    fill_b: RlFill,
    code: u8,
    out_keys: &mut [u32],
    out_offsets: &mut [usize],
    out_ends: &mut [i64],
    out_values: &mut [i64],
) -> RlBatched
    ensures { LaidBatched
        (WritesBatch (batch-zip-with.zip_with (batch a_keys.now a_offsets.now a_ends.now a_values.now)
        (batch b_keys.now b_offsets.now b_ends.now b_values.now) how (read_fill fill_a) (read_fill fill_b) code)
        out_keys out_offsets out_ends out_values) result }
{
    RlBatched::from(batch_zip_with::zip_with(
        a_keys,
        a_offsets,
        a_ends,
        a_values,
        b_keys,
        b_offsets,
        b_ends,
        b_values,
        how,
        ffi::fill(fill_a),
        ffi::fill(fill_b),
        code,
        out_keys,
        out_offsets,
        out_ends,
        out_values,
    ))
}
