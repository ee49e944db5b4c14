// The calls by their numbers, which are their places among the exports.
// Written by bindings/generate from the exports.
use crate::report_all;
use replay_case::inner::Outcome;
use std::io;

// One more than the last call's number.
pub const CALLS: usize = 44;

// The call of a number, or 0 for none that is replayed.
pub fn known(number: i64) -> usize {
    let call = number.cast_unsigned();
    match call {
        2..=43 => call as usize,
        _ => 0,
    }
}

pub fn outcome(call: usize, lists: &[i64], numbers: &[i64], lent: &[i64]) -> Outcome {
    match call {
        33..=43 => replay_batches::inner::outcome(call, lists, numbers, lent),
        _ => replay_columns::inner::outcome(call, lists, numbers, lent),
    }
}

pub fn report(out: &impl Print, cases: &[u64; CALLS], agreed: &[u64; CALLS]) -> io::Result<()> {
    let names =
        b"from_runs\nfrom_ends\nrepeat\npush_run\nextend_to\nfrom_dense\nto_dense\nequals\nplan\nzip_with\n\
        zip_with_raw\nplan_many\nzip_many\nrun_index\nslice\nslice_view\nslice_view_values\ngetitems\nconcat\n\
        shift\nreversed\nranges_where\nmerge\nmerged\nmerge_mask\nmerge_by\nmerge_plan\ngroup_ids\nsum\n\
        reduce\nslice_reduce\nbatch_from_parts\nbatch_position\nbatch_get\nbatch_getitems\n\
        batch_slice_reduce\nbatch_shift\nbatch_reversed\nbatch_map_rles_slice\nbatch_collapse\nbatch_concat\n\
        batch_zip_with\n";
    report_all(out, names, cases, agreed)
}
