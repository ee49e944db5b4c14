// The calls on batches, each on the lists and the numbers of a case and on the buffers that it lends.
// Written by bindings/generate from the exports.
use column::sequence;
use replay_case::inner;
use replay_case::inner::{LONGEST, Outcome};

fn batch_from_parts(lists: &[i64]) -> Outcome {
    let keys = inner::entries::<u32>(lists, 0);
    let offsets = inner::entries::<usize>(lists, 1);
    let keys_len = inner::lent(lists, 0, keys);
    let offsets_len = inner::lent(lists, 1, offsets);
    let answer = runlength::rl_batch_from_parts(
        &keys[..keys_len],
        &offsets[..offsets_len],
        inner::list(lists, 2),
        inner::list(lists, 3),
    );
    inner::answered(answer, 0, 0, 0, 0)
}

fn batch_position(lists: &[i64], numbers: &[i64]) -> Outcome {
    let keys = inner::entries::<u32>(lists, 0);
    let keys_len = inner::lent(lists, 0, keys);
    let answer = runlength::rl_batch_position(&keys[..keys_len], inner::key(numbers, 0));
    inner::answered(answer.refusal, answer.found, answer.index as u64, 0, 0)
}

fn batch_get_lent(
    lists: &[i64],
    numbers: &[i64],
    lent: &[i64],
    keys: &[u32],
    offsets: &[usize],
) -> Outcome {
    let mut out_ends = inner::entries::<i64>(lent, 0);
    let mut out_values = inner::entries::<i64>(lent, 1);
    let out_ends_len = inner::lent(lent, 0, out_ends);
    let out_values_len = inner::lent(lent, 1, out_values);
    let answer = runlength::rl_batch_get(
        keys,
        offsets,
        inner::list(lists, 2),
        inner::list(lists, 3),
        inner::key(numbers, 0),
        &mut out_ends[..out_ends_len],
        &mut out_values[..out_values_len],
    );
    let numbers = inner::numbers_of(answer.refusal, answer.found, answer.count as u64, 0, 0);
    inner::outcome_of(numbers, out_ends, out_values, [0i64; LONGEST])
}

fn batch_get(lists: &[i64], numbers: &[i64], lent: &[i64]) -> Outcome {
    let keys = inner::entries::<u32>(lists, 0);
    let offsets = inner::entries::<usize>(lists, 1);
    let keys_len = inner::lent(lists, 0, keys);
    let offsets_len = inner::lent(lists, 1, offsets);
    batch_get_lent(
        lists,
        numbers,
        lent,
        &keys[..keys_len],
        &offsets[..offsets_len],
    )
}

fn batch_getitems_lent(
    lists: &[i64],
    lent: &[i64],
    keys: &[u32],
    offsets: &[usize],
    get_keys: &[u32],
) -> Outcome {
    let mut out_offsets = inner::entries::<usize>(lent, 0);
    let mut out_ends = inner::entries::<i64>(lent, 1);
    let mut out_values = inner::entries::<i64>(lent, 2);
    let out_offsets_len = inner::lent(lent, 0, out_offsets);
    let out_ends_len = inner::lent(lent, 1, out_ends);
    let out_values_len = inner::lent(lent, 2, out_values);
    let answer = runlength::rl_batch_getitems(
        keys,
        offsets,
        inner::list(lists, 2),
        inner::list(lists, 3),
        get_keys,
        inner::list(lists, 5),
        inner::list(lists, 6),
        &mut out_offsets[..out_offsets_len],
        &mut out_ends[..out_ends_len],
        &mut out_values[..out_values_len],
    );
    let numbers = inner::numbers_of(answer.refusal, answer.keys as u64, answer.runs as u64, 0, 0);
    inner::outcome_of(
        numbers,
        inner::numbers_in(out_offsets),
        out_ends,
        out_values,
    )
}

fn batch_getitems(lists: &[i64], lent: &[i64]) -> Outcome {
    let keys = inner::entries::<u32>(lists, 0);
    let offsets = inner::entries::<usize>(lists, 1);
    let get_keys = inner::entries::<u32>(lists, 4);
    let keys_len = inner::lent(lists, 0, keys);
    let offsets_len = inner::lent(lists, 1, offsets);
    let get_keys_len = inner::lent(lists, 4, get_keys);
    batch_getitems_lent(
        lists,
        lent,
        &keys[..keys_len],
        &offsets[..offsets_len],
        &get_keys[..get_keys_len],
    )
}

fn batch_slice_reduce_lent(
    lists: &[i64],
    numbers: &[i64],
    lent: &[i64],
    keys: &[u32],
    offsets: &[usize],
    get_keys: &[u32],
) -> Outcome {
    let mut out_kinds = inner::entries::<u8>(lent, 0);
    let mut out_bits = inner::entries::<u64>(lent, 1);
    let out_kinds_len = inner::lent(lent, 0, out_kinds);
    let out_bits_len = inner::lent(lent, 1, out_bits);
    let answer = runlength::rl_batch_slice_reduce(
        keys,
        offsets,
        inner::list(lists, 2),
        inner::list(lists, 3),
        get_keys,
        inner::list(lists, 5),
        inner::list(lists, 6),
        inner::code(numbers, 0),
        sequence::entry_or(numbers, 1, 0),
        &mut out_kinds[..out_kinds_len],
        &mut out_bits[..out_bits_len],
    );
    let numbers = inner::numbers_of(answer.refusal, answer.count as u64, 0, 0, 0);
    inner::outcome_of(
        numbers,
        inner::numbers_in(out_kinds),
        inner::numbers_in(out_bits),
        [0i64; LONGEST],
    )
}

fn batch_slice_reduce(lists: &[i64], numbers: &[i64], lent: &[i64]) -> Outcome {
    let keys = inner::entries::<u32>(lists, 0);
    let offsets = inner::entries::<usize>(lists, 1);
    let get_keys = inner::entries::<u32>(lists, 4);
    let keys_len = inner::lent(lists, 0, keys);
    let offsets_len = inner::lent(lists, 1, offsets);
    let get_keys_len = inner::lent(lists, 4, get_keys);
    batch_slice_reduce_lent(
        lists,
        numbers,
        lent,
        &keys[..keys_len],
        &offsets[..offsets_len],
        &get_keys[..get_keys_len],
    )
}

fn batch_shift_lent(
    lists: &[i64],
    numbers: &[i64],
    lent: &[i64],
    keys: &[u32],
    offsets: &[usize],
) -> Outcome {
    let mut out_keys = inner::entries::<u32>(lent, 0);
    let mut out_offsets = inner::entries::<usize>(lent, 1);
    let mut out_ends = inner::entries::<i64>(lent, 2);
    let mut out_values = inner::entries::<i64>(lent, 3);
    let out_keys_len = inner::lent(lent, 0, out_keys);
    let out_offsets_len = inner::lent(lent, 1, out_offsets);
    let out_ends_len = inner::lent(lent, 2, out_ends);
    let out_values_len = inner::lent(lent, 3, out_values);
    let answer = runlength::rl_batch_shift(
        keys,
        offsets,
        inner::list(lists, 2),
        inner::list(lists, 3),
        sequence::entry_or(numbers, 0, 0),
        sequence::entry_or(numbers, 1, 0),
        &mut out_keys[..out_keys_len],
        &mut out_offsets[..out_offsets_len],
        &mut out_ends[..out_ends_len],
        &mut out_values[..out_values_len],
    );
    let numbers = inner::numbers_of(answer.refusal, answer.keys as u64, answer.runs as u64, 0, 0);
    Outcome {
        numbers,
        first: inner::numbers_in(out_keys),
        second: inner::numbers_in(out_offsets),
        third: out_ends,
        fourth: out_values,
        fifth: [0i64; LONGEST],
        sixth: [0i64; LONGEST],
    }
}

fn batch_shift(lists: &[i64], numbers: &[i64], lent: &[i64]) -> Outcome {
    let keys = inner::entries::<u32>(lists, 0);
    let offsets = inner::entries::<usize>(lists, 1);
    let keys_len = inner::lent(lists, 0, keys);
    let offsets_len = inner::lent(lists, 1, offsets);
    batch_shift_lent(
        lists,
        numbers,
        lent,
        &keys[..keys_len],
        &offsets[..offsets_len],
    )
}

fn batch_reversed_lent(lists: &[i64], lent: &[i64], keys: &[u32], offsets: &[usize]) -> Outcome {
    let mut out_keys = inner::entries::<u32>(lent, 0);
    let mut out_offsets = inner::entries::<usize>(lent, 1);
    let mut out_ends = inner::entries::<i64>(lent, 2);
    let mut out_values = inner::entries::<i64>(lent, 3);
    let out_keys_len = inner::lent(lent, 0, out_keys);
    let out_offsets_len = inner::lent(lent, 1, out_offsets);
    let out_ends_len = inner::lent(lent, 2, out_ends);
    let out_values_len = inner::lent(lent, 3, out_values);
    let answer = runlength::rl_batch_reversed(
        keys,
        offsets,
        inner::list(lists, 2),
        inner::list(lists, 3),
        &mut out_keys[..out_keys_len],
        &mut out_offsets[..out_offsets_len],
        &mut out_ends[..out_ends_len],
        &mut out_values[..out_values_len],
    );
    let numbers = inner::numbers_of(answer.refusal, answer.keys as u64, answer.runs as u64, 0, 0);
    Outcome {
        numbers,
        first: inner::numbers_in(out_keys),
        second: inner::numbers_in(out_offsets),
        third: out_ends,
        fourth: out_values,
        fifth: [0i64; LONGEST],
        sixth: [0i64; LONGEST],
    }
}

fn batch_reversed(lists: &[i64], lent: &[i64]) -> Outcome {
    let keys = inner::entries::<u32>(lists, 0);
    let offsets = inner::entries::<usize>(lists, 1);
    let keys_len = inner::lent(lists, 0, keys);
    let offsets_len = inner::lent(lists, 1, offsets);
    batch_reversed_lent(lists, lent, &keys[..keys_len], &offsets[..offsets_len])
}

fn batch_map_rles_slice_lent(
    lists: &[i64],
    numbers: &[i64],
    lent: &[i64],
    keys: &[u32],
    offsets: &[usize],
) -> Outcome {
    let mut out_keys = inner::entries::<u32>(lent, 0);
    let mut out_offsets = inner::entries::<usize>(lent, 1);
    let mut out_ends = inner::entries::<i64>(lent, 2);
    let mut out_values = inner::entries::<i64>(lent, 3);
    let out_keys_len = inner::lent(lent, 0, out_keys);
    let out_offsets_len = inner::lent(lent, 1, out_offsets);
    let out_ends_len = inner::lent(lent, 2, out_ends);
    let out_values_len = inner::lent(lent, 3, out_values);
    let answer = runlength::rl_batch_map_rles_slice(
        keys,
        offsets,
        inner::list(lists, 2),
        inner::list(lists, 3),
        sequence::entry_or(numbers, 0, 0),
        sequence::entry_or(numbers, 1, 0),
        &mut out_keys[..out_keys_len],
        &mut out_offsets[..out_offsets_len],
        &mut out_ends[..out_ends_len],
        &mut out_values[..out_values_len],
    );
    let numbers = inner::numbers_of(answer.refusal, answer.keys as u64, answer.runs as u64, 0, 0);
    Outcome {
        numbers,
        first: inner::numbers_in(out_keys),
        second: inner::numbers_in(out_offsets),
        third: out_ends,
        fourth: out_values,
        fifth: [0i64; LONGEST],
        sixth: [0i64; LONGEST],
    }
}

fn batch_map_rles_slice(lists: &[i64], numbers: &[i64], lent: &[i64]) -> Outcome {
    let keys = inner::entries::<u32>(lists, 0);
    let offsets = inner::entries::<usize>(lists, 1);
    let keys_len = inner::lent(lists, 0, keys);
    let offsets_len = inner::lent(lists, 1, offsets);
    batch_map_rles_slice_lent(
        lists,
        numbers,
        lent,
        &keys[..keys_len],
        &offsets[..offsets_len],
    )
}

fn batch_collapse_lent(
    lists: &[i64],
    numbers: &[i64],
    lent: &[i64],
    keys: &[u32],
    offsets: &[usize],
    new_keys: &[u32],
) -> Outcome {
    let mut out_keys = inner::entries::<u32>(lent, 0);
    let mut out_offsets = inner::entries::<usize>(lent, 1);
    let mut out_ends = inner::entries::<i64>(lent, 2);
    let mut out_values = inner::entries::<i64>(lent, 3);
    let mut scratch_ends = inner::entries::<i64>(lent, 4);
    let mut scratch_values = inner::entries::<i64>(lent, 5);
    let out_keys_len = inner::lent(lent, 0, out_keys);
    let out_offsets_len = inner::lent(lent, 1, out_offsets);
    let out_ends_len = inner::lent(lent, 2, out_ends);
    let out_values_len = inner::lent(lent, 3, out_values);
    let scratch_ends_len = inner::lent(lent, 4, scratch_ends);
    let scratch_values_len = inner::lent(lent, 5, scratch_values);
    let answer = runlength::rl_batch_collapse(
        keys,
        offsets,
        inner::list(lists, 2),
        inner::list(lists, 3),
        new_keys,
        inner::fill_at(numbers, 0),
        inner::code(numbers, 2),
        &mut out_keys[..out_keys_len],
        &mut out_offsets[..out_offsets_len],
        &mut out_ends[..out_ends_len],
        &mut out_values[..out_values_len],
        &mut scratch_ends[..scratch_ends_len],
        &mut scratch_values[..scratch_values_len],
    );
    let numbers = inner::numbers_of(answer.refusal, answer.keys as u64, answer.runs as u64, 0, 0);
    Outcome {
        numbers,
        first: inner::numbers_in(out_keys),
        second: inner::numbers_in(out_offsets),
        third: out_ends,
        fourth: out_values,
        fifth: scratch_ends,
        sixth: scratch_values,
    }
}

fn batch_collapse(lists: &[i64], numbers: &[i64], lent: &[i64]) -> Outcome {
    let keys = inner::entries::<u32>(lists, 0);
    let offsets = inner::entries::<usize>(lists, 1);
    let new_keys = inner::entries::<u32>(lists, 4);
    let keys_len = inner::lent(lists, 0, keys);
    let offsets_len = inner::lent(lists, 1, offsets);
    let new_keys_len = inner::lent(lists, 4, new_keys);
    batch_collapse_lent(
        lists,
        numbers,
        lent,
        &keys[..keys_len],
        &offsets[..offsets_len],
        &new_keys[..new_keys_len],
    )
}

fn batch_concat_lent(
    lists: &[i64],
    lent: &[i64],
    a_keys: &[u32],
    a_offsets: &[usize],
    b_keys: &[u32],
    b_offsets: &[usize],
) -> Outcome {
    let mut out_keys = inner::entries::<u32>(lent, 0);
    let mut out_offsets = inner::entries::<usize>(lent, 1);
    let mut out_ends = inner::entries::<i64>(lent, 2);
    let mut out_values = inner::entries::<i64>(lent, 3);
    let out_keys_len = inner::lent(lent, 0, out_keys);
    let out_offsets_len = inner::lent(lent, 1, out_offsets);
    let out_ends_len = inner::lent(lent, 2, out_ends);
    let out_values_len = inner::lent(lent, 3, out_values);
    let answer = runlength::rl_batch_concat(
        a_keys,
        a_offsets,
        inner::list(lists, 2),
        inner::list(lists, 3),
        b_keys,
        b_offsets,
        inner::list(lists, 6),
        inner::list(lists, 7),
        &mut out_keys[..out_keys_len],
        &mut out_offsets[..out_offsets_len],
        &mut out_ends[..out_ends_len],
        &mut out_values[..out_values_len],
    );
    let numbers = inner::numbers_of(answer.refusal, answer.keys as u64, answer.runs as u64, 0, 0);
    Outcome {
        numbers,
        first: inner::numbers_in(out_keys),
        second: inner::numbers_in(out_offsets),
        third: out_ends,
        fourth: out_values,
        fifth: [0i64; LONGEST],
        sixth: [0i64; LONGEST],
    }
}

fn batch_concat(lists: &[i64], lent: &[i64]) -> Outcome {
    let a_keys = inner::entries::<u32>(lists, 0);
    let a_offsets = inner::entries::<usize>(lists, 1);
    let b_keys = inner::entries::<u32>(lists, 4);
    let b_offsets = inner::entries::<usize>(lists, 5);
    let a_keys_len = inner::lent(lists, 0, a_keys);
    let a_offsets_len = inner::lent(lists, 1, a_offsets);
    let b_keys_len = inner::lent(lists, 4, b_keys);
    let b_offsets_len = inner::lent(lists, 5, b_offsets);
    batch_concat_lent(
        lists,
        lent,
        &a_keys[..a_keys_len],
        &a_offsets[..a_offsets_len],
        &b_keys[..b_keys_len],
        &b_offsets[..b_offsets_len],
    )
}

fn batch_zip_with_lent(
    lists: &[i64],
    numbers: &[i64],
    lent: &[i64],
    a_keys: &[u32],
    a_offsets: &[usize],
    b_keys: &[u32],
    b_offsets: &[usize],
) -> Outcome {
    let mut out_keys = inner::entries::<u32>(lent, 0);
    let mut out_offsets = inner::entries::<usize>(lent, 1);
    let mut out_ends = inner::entries::<i64>(lent, 2);
    let mut out_values = inner::entries::<i64>(lent, 3);
    let out_keys_len = inner::lent(lent, 0, out_keys);
    let out_offsets_len = inner::lent(lent, 1, out_offsets);
    let out_ends_len = inner::lent(lent, 2, out_ends);
    let out_values_len = inner::lent(lent, 3, out_values);
    let answer = runlength::rl_batch_zip_with(
        a_keys,
        a_offsets,
        inner::list(lists, 2),
        inner::list(lists, 3),
        b_keys,
        b_offsets,
        inner::list(lists, 6),
        inner::list(lists, 7),
        inner::code(numbers, 0),
        inner::fill_at(numbers, 1),
        inner::fill_at(numbers, 3),
        inner::code(numbers, 5),
        &mut out_keys[..out_keys_len],
        &mut out_offsets[..out_offsets_len],
        &mut out_ends[..out_ends_len],
        &mut out_values[..out_values_len],
    );
    let numbers = inner::numbers_of(answer.refusal, answer.keys as u64, answer.runs as u64, 0, 0);
    Outcome {
        numbers,
        first: inner::numbers_in(out_keys),
        second: inner::numbers_in(out_offsets),
        third: out_ends,
        fourth: out_values,
        fifth: [0i64; LONGEST],
        sixth: [0i64; LONGEST],
    }
}

fn batch_zip_with(lists: &[i64], numbers: &[i64], lent: &[i64]) -> Outcome {
    let a_keys = inner::entries::<u32>(lists, 0);
    let a_offsets = inner::entries::<usize>(lists, 1);
    let b_keys = inner::entries::<u32>(lists, 4);
    let b_offsets = inner::entries::<usize>(lists, 5);
    let a_keys_len = inner::lent(lists, 0, a_keys);
    let a_offsets_len = inner::lent(lists, 1, a_offsets);
    let b_keys_len = inner::lent(lists, 4, b_keys);
    let b_offsets_len = inner::lent(lists, 5, b_offsets);
    batch_zip_with_lent(
        lists,
        numbers,
        lent,
        &a_keys[..a_keys_len],
        &a_offsets[..a_offsets_len],
        &b_keys[..b_keys_len],
        &b_offsets[..b_offsets_len],
    )
}

pub fn outcome(call: usize, lists: &[i64], numbers: &[i64], lent: &[i64]) -> Outcome {
    match call {
        33 => batch_from_parts(lists),
        34 => batch_position(lists, numbers),
        35 => batch_get(lists, numbers, lent),
        36 => batch_getitems(lists, lent),
        37 => batch_slice_reduce(lists, numbers, lent),
        38 => batch_shift(lists, numbers, lent),
        39 => batch_reversed(lists, lent),
        40 => batch_map_rles_slice(lists, numbers, lent),
        41 => batch_collapse(lists, numbers, lent),
        42 => batch_concat(lists, lent),
        _ => batch_zip_with(lists, numbers, lent),
    }
}
