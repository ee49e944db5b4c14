// The calls on columns, each on the lists and the numbers of a case and on the buffers that it lends.
// Written by bindings/generate from the exports.
use column::sequence;
use replay_case::inner;
use replay_case::inner::{LONGEST, Outcome};

fn from_runs(lists: &[i64], lent: &[i64]) -> Outcome {
    let mut out_ends = inner::entries::<i64>(lent, 0);
    let mut out_values = inner::entries::<i64>(lent, 1);
    let out_ends_len = inner::lent(lent, 0, out_ends);
    let out_values_len = inner::lent(lent, 1, out_values);
    let answer = runlength::rl_from_runs(
        inner::list(lists, 0),
        inner::list(lists, 1),
        &mut out_ends[..out_ends_len],
        &mut out_values[..out_values_len],
    );
    let numbers = inner::numbers_of(answer.refusal, answer.count as u64, 0, 0, 0);
    inner::outcome_of(numbers, out_ends, out_values, [0i64; LONGEST])
}

fn from_ends(lists: &[i64]) -> Outcome {
    let answer = runlength::rl_from_ends(inner::list(lists, 0), inner::list(lists, 1));
    inner::answered(answer, 0, 0, 0, 0)
}

fn repeat(numbers: &[i64], lent: &[i64]) -> Outcome {
    let mut out_ends = inner::entries::<i64>(lent, 0);
    let mut out_values = inner::entries::<i64>(lent, 1);
    let out_ends_len = inner::lent(lent, 0, out_ends);
    let out_values_len = inner::lent(lent, 1, out_values);
    let answer = runlength::rl_repeat(
        sequence::entry_or(numbers, 0, 0),
        sequence::entry_or(numbers, 1, 0),
        &mut out_ends[..out_ends_len],
        &mut out_values[..out_values_len],
    );
    let numbers = inner::numbers_of(answer.refusal, answer.count as u64, 0, 0, 0);
    inner::outcome_of(numbers, out_ends, out_values, [0i64; LONGEST])
}

fn push_run(numbers: &[i64], lent: &[i64]) -> Outcome {
    let mut ends = inner::entries::<i64>(lent, 0);
    let mut values = inner::entries::<i64>(lent, 1);
    let ends_len = inner::lent(lent, 0, ends);
    let values_len = inner::lent(lent, 1, values);
    let answer = runlength::rl_push_run(
        &mut ends[..ends_len],
        &mut values[..values_len],
        inner::size(numbers, 0),
        sequence::entry_or(numbers, 1, 0),
        sequence::entry_or(numbers, 2, 0),
    );
    let numbers = inner::numbers_of(answer.refusal, answer.count as u64, 0, 0, 0);
    inner::outcome_of(numbers, ends, values, [0i64; LONGEST])
}

fn extend_to(numbers: &[i64], lent: &[i64]) -> Outcome {
    let mut ends = inner::entries::<i64>(lent, 0);
    let mut values = inner::entries::<i64>(lent, 1);
    let ends_len = inner::lent(lent, 0, ends);
    let values_len = inner::lent(lent, 1, values);
    let answer = runlength::rl_extend_to(
        &mut ends[..ends_len],
        &mut values[..values_len],
        inner::size(numbers, 0),
        sequence::entry_or(numbers, 1, 0),
        sequence::entry_or(numbers, 2, 0),
    );
    let numbers = inner::numbers_of(answer.refusal, answer.count as u64, 0, 0, 0);
    inner::outcome_of(numbers, ends, values, [0i64; LONGEST])
}

fn from_dense(lists: &[i64], lent: &[i64]) -> Outcome {
    let mut out_ends = inner::entries::<i64>(lent, 0);
    let mut out_values = inner::entries::<i64>(lent, 1);
    let out_ends_len = inner::lent(lent, 0, out_ends);
    let out_values_len = inner::lent(lent, 1, out_values);
    let answer = runlength::rl_from_dense(
        inner::list(lists, 0),
        &mut out_ends[..out_ends_len],
        &mut out_values[..out_values_len],
    );
    let numbers = inner::numbers_of(answer.refusal, answer.count as u64, 0, 0, 0);
    inner::outcome_of(numbers, out_ends, out_values, [0i64; LONGEST])
}

fn to_dense(lists: &[i64], lent: &[i64]) -> Outcome {
    let mut out = inner::entries::<i64>(lent, 0);
    let out_len = inner::lent(lent, 0, out);
    let answer = runlength::rl_to_dense(
        inner::list(lists, 0),
        inner::list(lists, 1),
        &mut out[..out_len],
    );
    let numbers = inner::numbers_of(answer.refusal, answer.count as u64, 0, 0, 0);
    inner::outcome_of(numbers, out, [0i64; LONGEST], [0i64; LONGEST])
}

fn equals(lists: &[i64]) -> Outcome {
    let answer = runlength::rl_equals(
        inner::list(lists, 0),
        inner::list(lists, 1),
        inner::list(lists, 2),
        inner::list(lists, 3),
    );
    inner::answered(answer.refusal, answer.equal, 0, 0, 0)
}

fn plan(lists: &[i64], lent: &[i64]) -> Outcome {
    let mut out_ends = inner::entries::<i64>(lent, 0);
    let mut out_idx_a = inner::entries::<usize>(lent, 1);
    let mut out_idx_b = inner::entries::<usize>(lent, 2);
    let out_ends_len = inner::lent(lent, 0, out_ends);
    let out_idx_a_len = inner::lent(lent, 1, out_idx_a);
    let out_idx_b_len = inner::lent(lent, 2, out_idx_b);
    let answer = runlength::rl_plan(
        inner::list(lists, 0),
        inner::list(lists, 1),
        &mut out_ends[..out_ends_len],
        &mut out_idx_a[..out_idx_a_len],
        &mut out_idx_b[..out_idx_b_len],
    );
    let numbers = inner::numbers_of(answer.refusal, answer.count as u64, 0, 0, 0);
    inner::outcome_of(
        numbers,
        out_ends,
        inner::numbers_in(out_idx_a),
        inner::numbers_in(out_idx_b),
    )
}

fn zip_with(lists: &[i64], numbers: &[i64], lent: &[i64]) -> Outcome {
    let mut out_ends = inner::entries::<i64>(lent, 0);
    let mut out_values = inner::entries::<i64>(lent, 1);
    let out_ends_len = inner::lent(lent, 0, out_ends);
    let out_values_len = inner::lent(lent, 1, out_values);
    let answer = runlength::rl_zip_with(
        inner::list(lists, 0),
        inner::list(lists, 1),
        inner::list(lists, 2),
        inner::list(lists, 3),
        inner::fill_at(numbers, 0),
        inner::fill_at(numbers, 2),
        inner::code(numbers, 4),
        &mut out_ends[..out_ends_len],
        &mut out_values[..out_values_len],
    );
    let numbers = inner::numbers_of(answer.refusal, answer.count as u64, 0, 0, 0);
    inner::outcome_of(numbers, out_ends, out_values, [0i64; LONGEST])
}

fn zip_with_raw(lists: &[i64], numbers: &[i64], lent: &[i64]) -> Outcome {
    let mut out_ends = inner::entries::<i64>(lent, 0);
    let mut out_values = inner::entries::<i64>(lent, 1);
    let out_ends_len = inner::lent(lent, 0, out_ends);
    let out_values_len = inner::lent(lent, 1, out_values);
    let answer = runlength::rl_zip_with_raw(
        inner::list(lists, 0),
        inner::list(lists, 1),
        inner::list(lists, 2),
        inner::list(lists, 3),
        inner::fill_at(numbers, 0),
        inner::fill_at(numbers, 2),
        inner::code(numbers, 4),
        &mut out_ends[..out_ends_len],
        &mut out_values[..out_values_len],
    );
    let numbers = inner::numbers_of(answer.refusal, answer.count as u64, 0, 0, 0);
    inner::outcome_of(numbers, out_ends, out_values, [0i64; LONGEST])
}

fn plan_many_lent(lists: &[i64], lent: &[i64], offsets: &[usize]) -> Outcome {
    let mut out_ends = inner::entries::<i64>(lent, 0);
    let mut out_idx = inner::entries::<usize>(lent, 1);
    let out_ends_len = inner::lent(lent, 0, out_ends);
    let out_idx_len = inner::lent(lent, 1, out_idx);
    let answer = runlength::rl_plan_many(
        offsets,
        inner::list(lists, 1),
        inner::list(lists, 2),
        &mut out_ends[..out_ends_len],
        &mut out_idx[..out_idx_len],
    );
    let numbers = inner::numbers_of(
        answer.refusal,
        answer.segments as u64,
        answer.indexes as u64,
        0,
        0,
    );
    inner::outcome_of(
        numbers,
        out_ends,
        inner::numbers_in(out_idx),
        [0i64; LONGEST],
    )
}

fn plan_many(lists: &[i64], lent: &[i64]) -> Outcome {
    let offsets = inner::entries::<usize>(lists, 0);
    let offsets_len = inner::lent(lists, 0, offsets);
    plan_many_lent(lists, lent, &offsets[..offsets_len])
}

fn zip_many_lent(lists: &[i64], numbers: &[i64], lent: &[i64], offsets: &[usize]) -> Outcome {
    let mut out_ends = inner::entries::<i64>(lent, 0);
    let mut out_values = inner::entries::<i64>(lent, 1);
    let out_ends_len = inner::lent(lent, 0, out_ends);
    let out_values_len = inner::lent(lent, 1, out_values);
    let answer = runlength::rl_zip_many(
        offsets,
        inner::list(lists, 1),
        inner::list(lists, 2),
        inner::fill_at(numbers, 0),
        inner::code(numbers, 2),
        &mut out_ends[..out_ends_len],
        &mut out_values[..out_values_len],
    );
    let numbers = inner::numbers_of(answer.refusal, answer.count as u64, 0, 0, 0);
    inner::outcome_of(numbers, out_ends, out_values, [0i64; LONGEST])
}

fn zip_many(lists: &[i64], numbers: &[i64], lent: &[i64]) -> Outcome {
    let offsets = inner::entries::<usize>(lists, 0);
    let offsets_len = inner::lent(lists, 0, offsets);
    zip_many_lent(lists, numbers, lent, &offsets[..offsets_len])
}

fn run_index(lists: &[i64], numbers: &[i64]) -> Outcome {
    let answer = runlength::rl_run_index(inner::list(lists, 0), sequence::entry_or(numbers, 0, 0));
    inner::answered(answer.refusal, answer.found, answer.index as u64, 0, 0)
}

fn slice(lists: &[i64], numbers: &[i64], lent: &[i64]) -> Outcome {
    let mut out_ends = inner::entries::<i64>(lent, 0);
    let mut out_values = inner::entries::<i64>(lent, 1);
    let out_ends_len = inner::lent(lent, 0, out_ends);
    let out_values_len = inner::lent(lent, 1, out_values);
    let answer = runlength::rl_slice(
        inner::list(lists, 0),
        inner::list(lists, 1),
        sequence::entry_or(numbers, 0, 0),
        sequence::entry_or(numbers, 1, 0),
        &mut out_ends[..out_ends_len],
        &mut out_values[..out_values_len],
    );
    let numbers = inner::numbers_of(answer.refusal, answer.count as u64, 0, 0, 0);
    inner::outcome_of(numbers, out_ends, out_values, [0i64; LONGEST])
}

fn slice_view(lists: &[i64], numbers: &[i64]) -> Outcome {
    let answer = runlength::rl_slice_view(
        inner::list(lists, 0),
        inner::list(lists, 1),
        sequence::entry_or(numbers, 0, 0),
        sequence::entry_or(numbers, 1, 0),
    );
    inner::answered(
        answer.refusal,
        answer.first as u64,
        answer.start.cast_unsigned(),
        answer.length.cast_unsigned(),
        0,
    )
}

fn slice_view_values(lists: &[i64], numbers: &[i64]) -> Outcome {
    let answer = runlength::rl_slice_view_values(
        inner::list(lists, 0),
        inner::list(lists, 1),
        sequence::entry_or(numbers, 0, 0),
        sequence::entry_or(numbers, 1, 0),
    );
    inner::answered(
        inner::no_refusal(),
        answer.first as u64,
        answer.count as u64,
        0,
        0,
    )
}

fn getitems(lists: &[i64], lent: &[i64]) -> Outcome {
    let mut out_offsets = inner::entries::<usize>(lent, 0);
    let mut out_ends = inner::entries::<i64>(lent, 1);
    let mut out_values = inner::entries::<i64>(lent, 2);
    let out_offsets_len = inner::lent(lent, 0, out_offsets);
    let out_ends_len = inner::lent(lent, 1, out_ends);
    let out_values_len = inner::lent(lent, 2, out_values);
    let answer = runlength::rl_getitems(
        inner::list(lists, 0),
        inner::list(lists, 1),
        inner::list(lists, 2),
        inner::list(lists, 3),
        &mut out_offsets[..out_offsets_len],
        &mut out_ends[..out_ends_len],
        &mut out_values[..out_values_len],
    );
    let numbers = inner::numbers_of(answer.refusal, answer.keys as u64, answer.runs as u64, 0, 0);
    inner::outcome_of(
        numbers,
        inner::numbers_in(out_offsets),
        out_ends,
        out_values,
    )
}

fn concat_lent(lists: &[i64], lent: &[i64], offsets: &[usize]) -> Outcome {
    let mut out_ends = inner::entries::<i64>(lent, 0);
    let mut out_values = inner::entries::<i64>(lent, 1);
    let out_ends_len = inner::lent(lent, 0, out_ends);
    let out_values_len = inner::lent(lent, 1, out_values);
    let answer = runlength::rl_concat(
        offsets,
        inner::list(lists, 1),
        inner::list(lists, 2),
        &mut out_ends[..out_ends_len],
        &mut out_values[..out_values_len],
    );
    let numbers = inner::numbers_of(answer.refusal, answer.count as u64, 0, 0, 0);
    inner::outcome_of(numbers, out_ends, out_values, [0i64; LONGEST])
}

fn concat(lists: &[i64], lent: &[i64]) -> Outcome {
    let offsets = inner::entries::<usize>(lists, 0);
    let offsets_len = inner::lent(lists, 0, offsets);
    concat_lent(lists, lent, &offsets[..offsets_len])
}

fn shift(lists: &[i64], numbers: &[i64], lent: &[i64]) -> Outcome {
    let mut out_ends = inner::entries::<i64>(lent, 0);
    let mut out_values = inner::entries::<i64>(lent, 1);
    let out_ends_len = inner::lent(lent, 0, out_ends);
    let out_values_len = inner::lent(lent, 1, out_values);
    let answer = runlength::rl_shift(
        inner::list(lists, 0),
        inner::list(lists, 1),
        sequence::entry_or(numbers, 0, 0),
        sequence::entry_or(numbers, 1, 0),
        &mut out_ends[..out_ends_len],
        &mut out_values[..out_values_len],
    );
    let numbers = inner::numbers_of(answer.refusal, answer.count as u64, 0, 0, 0);
    inner::outcome_of(numbers, out_ends, out_values, [0i64; LONGEST])
}

fn reversed(lists: &[i64], lent: &[i64]) -> Outcome {
    let mut out_ends = inner::entries::<i64>(lent, 0);
    let mut out_values = inner::entries::<i64>(lent, 1);
    let out_ends_len = inner::lent(lent, 0, out_ends);
    let out_values_len = inner::lent(lent, 1, out_values);
    let answer = runlength::rl_reversed(
        inner::list(lists, 0),
        inner::list(lists, 1),
        &mut out_ends[..out_ends_len],
        &mut out_values[..out_values_len],
    );
    let numbers = inner::numbers_of(answer.refusal, answer.count as u64, 0, 0, 0);
    inner::outcome_of(numbers, out_ends, out_values, [0i64; LONGEST])
}

fn ranges_where(lists: &[i64], numbers: &[i64], lent: &[i64]) -> Outcome {
    let mut out_starts = inner::entries::<i64>(lent, 0);
    let mut out_ends = inner::entries::<i64>(lent, 1);
    let out_starts_len = inner::lent(lent, 0, out_starts);
    let out_ends_len = inner::lent(lent, 1, out_ends);
    let answer = runlength::rl_ranges_where(
        inner::list(lists, 0),
        inner::list(lists, 1),
        inner::code(numbers, 0),
        sequence::entry_or(numbers, 1, 0),
        &mut out_starts[..out_starts_len],
        &mut out_ends[..out_ends_len],
    );
    let numbers = inner::numbers_of(answer.refusal, answer.count as u64, 0, 0, 0);
    inner::outcome_of(numbers, out_starts, out_ends, [0i64; LONGEST])
}

fn merge(lists: &[i64], lent: &[i64]) -> Outcome {
    let mut out_ends = inner::entries::<i64>(lent, 0);
    let mut out_values = inner::entries::<i64>(lent, 1);
    let out_ends_len = inner::lent(lent, 0, out_ends);
    let out_values_len = inner::lent(lent, 1, out_values);
    let answer = runlength::rl_merge(
        inner::list(lists, 0),
        inner::list(lists, 1),
        &mut out_ends[..out_ends_len],
        &mut out_values[..out_values_len],
    );
    let numbers = inner::numbers_of(answer.refusal, answer.count as u64, 0, 0, 0);
    inner::outcome_of(numbers, out_ends, out_values, [0i64; LONGEST])
}

fn merged(lists: &[i64], lent: &[i64]) -> Outcome {
    let mut out_ends = inner::entries::<i64>(lent, 0);
    let mut out_values = inner::entries::<i64>(lent, 1);
    let out_ends_len = inner::lent(lent, 0, out_ends);
    let out_values_len = inner::lent(lent, 1, out_values);
    let answer = runlength::rl_merged(
        inner::list(lists, 0),
        inner::list(lists, 1),
        &mut out_ends[..out_ends_len],
        &mut out_values[..out_values_len],
    );
    let numbers = inner::numbers_of(answer.refusal, answer.count as u64, 0, 0, 0);
    inner::outcome_of(numbers, out_ends, out_values, [0i64; LONGEST])
}

fn merge_mask_lent(lists: &[i64], numbers: &[i64], lent: &[i64], mask: &[u8]) -> Outcome {
    let mut out_ends = inner::entries::<i64>(lent, 0);
    let mut out_values = inner::entries::<i64>(lent, 1);
    let out_ends_len = inner::lent(lent, 0, out_ends);
    let out_values_len = inner::lent(lent, 1, out_values);
    let answer = runlength::rl_merge_mask(
        inner::list(lists, 0),
        inner::list(lists, 1),
        mask,
        inner::code(numbers, 0),
        &mut out_ends[..out_ends_len],
        &mut out_values[..out_values_len],
    );
    let numbers = inner::numbers_of(answer.refusal, answer.count as u64, 0, 0, 0);
    inner::outcome_of(numbers, out_ends, out_values, [0i64; LONGEST])
}

fn merge_mask(lists: &[i64], numbers: &[i64], lent: &[i64]) -> Outcome {
    let mask = inner::entries::<u8>(lists, 2);
    let mask_len = inner::lent(lists, 2, mask);
    merge_mask_lent(lists, numbers, lent, &mask[..mask_len])
}

fn merge_by(lists: &[i64], numbers: &[i64], lent: &[i64]) -> Outcome {
    let mut out_ends = inner::entries::<i64>(lent, 0);
    let mut out_values = inner::entries::<i64>(lent, 1);
    let out_ends_len = inner::lent(lent, 0, out_ends);
    let out_values_len = inner::lent(lent, 1, out_values);
    let answer = runlength::rl_merge_by(
        inner::list(lists, 0),
        inner::list(lists, 1),
        inner::code(numbers, 0),
        &mut out_ends[..out_ends_len],
        &mut out_values[..out_values_len],
    );
    let numbers = inner::numbers_of(answer.refusal, answer.count as u64, 0, 0, 0);
    inner::outcome_of(numbers, out_ends, out_values, [0i64; LONGEST])
}

fn merge_plan_lent(lists: &[i64], lent: &[i64], mask: &[u8]) -> Outcome {
    let mut out_ends = inner::entries::<i64>(lent, 0);
    let mut out_offsets = inner::entries::<usize>(lent, 1);
    let out_ends_len = inner::lent(lent, 0, out_ends);
    let out_offsets_len = inner::lent(lent, 1, out_offsets);
    let answer = runlength::rl_merge_plan(
        inner::list(lists, 0),
        mask,
        &mut out_ends[..out_ends_len],
        &mut out_offsets[..out_offsets_len],
    );
    let numbers = inner::numbers_of(answer.refusal, answer.count as u64, 0, 0, 0);
    inner::outcome_of(
        numbers,
        out_ends,
        inner::numbers_in(out_offsets),
        [0i64; LONGEST],
    )
}

fn merge_plan(lists: &[i64], lent: &[i64]) -> Outcome {
    let mask = inner::entries::<u8>(lists, 1);
    let mask_len = inner::lent(lists, 1, mask);
    merge_plan_lent(lists, lent, &mask[..mask_len])
}

fn group_ids_lent(lent: &[i64], offsets: &[usize]) -> Outcome {
    let mut out_ids = inner::entries::<usize>(lent, 0);
    let out_ids_len = inner::lent(lent, 0, out_ids);
    let answer = runlength::rl_group_ids(offsets, &mut out_ids[..out_ids_len]);
    let numbers = inner::numbers_of(answer.refusal, answer.count as u64, 0, 0, 0);
    inner::outcome_of(
        numbers,
        inner::numbers_in(out_ids),
        [0i64; LONGEST],
        [0i64; LONGEST],
    )
}

fn group_ids(lists: &[i64], lent: &[i64]) -> Outcome {
    let offsets = inner::entries::<usize>(lists, 0);
    let offsets_len = inner::lent(lists, 0, offsets);
    group_ids_lent(lent, &offsets[..offsets_len])
}

fn sum(lists: &[i64]) -> Outcome {
    let answer = runlength::rl_sum(inner::list(lists, 0), inner::list(lists, 1));
    inner::answered(answer.refusal, answer.total.cast_unsigned(), 0, 0, 0)
}

fn reduce(lists: &[i64], numbers: &[i64]) -> Outcome {
    let answer = runlength::rl_reduce(
        inner::list(lists, 0),
        inner::list(lists, 1),
        inner::code(numbers, 0),
        sequence::entry_or(numbers, 1, 0),
    );
    let mean = f64::to_bits(answer.mean);
    let variance = f64::to_bits(answer.variance);
    inner::answered(
        answer.refusal,
        answer.kind,
        answer.whole.cast_unsigned(),
        mean,
        variance,
    )
}

fn slice_reduce(lists: &[i64], numbers: &[i64], lent: &[i64]) -> Outcome {
    let mut out_kinds = inner::entries::<u8>(lent, 0);
    let mut out_bits = inner::entries::<u64>(lent, 1);
    let out_kinds_len = inner::lent(lent, 0, out_kinds);
    let out_bits_len = inner::lent(lent, 1, out_bits);
    let answer = runlength::rl_slice_reduce(
        inner::list(lists, 0),
        inner::list(lists, 1),
        inner::list(lists, 2),
        inner::list(lists, 3),
        inner::code(numbers, 0),
        sequence::entry_or(numbers, 1, 0),
        &mut out_kinds[..out_kinds_len],
        &mut out_bits[..out_bits_len],
    );
    let numbers = inner::numbers_of(answer.refusal, answer.count as u64, 0, 0, 0);
    inner::outcome_of(
        numbers,
        inner::numbers_in(out_kinds),
        inner::numbers_in(out_bits),
        [0i64; LONGEST],
    )
}

pub fn outcome(call: usize, lists: &[i64], numbers: &[i64], lent: &[i64]) -> Outcome {
    match call {
        2 => from_runs(lists, lent),
        3 => from_ends(lists),
        4 => repeat(numbers, lent),
        5 => push_run(numbers, lent),
        6 => extend_to(numbers, lent),
        7 => from_dense(lists, lent),
        8 => to_dense(lists, lent),
        9 => equals(lists),
        10 => plan(lists, lent),
        11 => zip_with(lists, numbers, lent),
        12 => zip_with_raw(lists, numbers, lent),
        13 => plan_many(lists, lent),
        14 => zip_many(lists, numbers, lent),
        15 => run_index(lists, numbers),
        16 => slice(lists, numbers, lent),
        17 => slice_view(lists, numbers),
        18 => slice_view_values(lists, numbers),
        19 => getitems(lists, lent),
        20 => concat(lists, lent),
        21 => shift(lists, numbers, lent),
        22 => reversed(lists, lent),
        23 => ranges_where(lists, numbers, lent),
        24 => merge(lists, lent),
        25 => merged(lists, lent),
        26 => merge_mask(lists, numbers, lent),
        27 => merge_by(lists, numbers, lent),
        28 => merge_plan(lists, lent),
        29 => group_ids(lists, lent),
        30 => sum(lists),
        31 => reduce(lists, numbers),
        _ => slice_reduce(lists, numbers, lent),
    }
}
