// Workers that assume what the calls have asked.
ghost use Rattle.std.specs.Prelude.{◌+◌, ◌-◌, ◌≤◌, ◌<◌, true, ◌≡◌, length};
ghost use Rattle.column.specs.Questions.{start_and_rise, last_offset};
ghost use Rattle.column.specs.Runs.{over};
ghost use Rattle.merge_mask.specs.Calls.{groups};
ghost use Rattle.merge_plan.specs.Calls.{ids_at};
ghost use Rattle.merge_plan.specs.Workers.{Stored, Planned, PutIds, FilledIds};

use column::{mask, sequence};

// The end of a group, and one past its last run.
fn write_group(out_ends: &mut [i64], out_offsets: &mut [usize], group: usize, end: i64, past: usize)
    requires { (group < length out_ends.old) × (group + 1 < length out_offsets.old) }
    ensures { Stored out_ends.old out_ends.new out_offsets.old out_offsets.new group end past }
{
    out_ends[group] = end;
    out_offsets[group + 1] = past;
}

// The groups that a mask makes. Each run is written as the last of its group, and the next one over it where that joins.
pub fn merge_plan(
    ends: &[i64],
    mask: &[u8],
    out_ends: &mut [i64],
    out_offsets: &mut [usize],
) -> usize
    requires { (length mask.now ≡ length ends.now - 1) × (length ends.now ≤ length out_ends.old)
        × (length ends.now + 1 ≤ length out_offsets.old) }
    ensures { Planned (groups ends.now mask.now) out_ends.old out_ends.new out_offsets.old out_offsets.new result }
{
    out_offsets[0] = 0;
    if ends.len() == 0 {
        return 0;
    }
    let mut group: usize = 0;
    for run in 0..mask.len() {
        let end = ends[run];
        write_group(out_ends, out_offsets, group, end, run + 1);
        group = merge_mask::inner::place_after(group, mask[run] == 1);
    }
    let last = mask.len();
    write_group(out_ends, out_offsets, group, ends[last], last + 1);
    ends.len() - mask::mask_ones(mask)
}

// So many ids are written at once.
const BLOCK: usize = 4;

// The id at the next entries below the limit, one or a block of them, which are written at once: those after the group are written
// again by the groups that follow.
fn put_ids(out: &mut [usize], at: usize, limit: usize, id: usize) -> usize
    requires { (at < limit) × (limit ≤ length out.old) }
    ensures { PutIds out.old out.new at limit id result }
{
    if limit - at < BLOCK {
        out[at] = id;
        return at + 1;
    }
    out[at] = id;
    out[at + 1] = id;
    out[at + 2] = id;
    out[at + 3] = id;
    at + BLOCK
}

// A short group, with hardly a branch on its length.
fn fill_short(out: &mut [usize], from: usize, to: usize, limit: usize, id: usize)
    requires { (from ≤ to) × (to ≤ limit) × (limit ≤ length out.old) }
    ensures { FilledIds out.old out.new from to limit id }
{
    let mut i = from;
    while i < to {
        i = put_ids(out, i, limit, id);
    }
}

// A long group, by a loop that becomes vector instructions.
fn fill_long(out: &mut [usize], from: usize, to: usize, limit: usize, id: usize)
    requires { (from ≤ to) × (to ≤ limit) × (limit ≤ length out.old) }
    ensures { FilledIds out.old out.new from to limit id }
{
    for i in from..to {
        out[i] = id;
    }
}

fn fill_group(out: &mut [usize], from: usize, to: usize, limit: usize, id: usize)
    requires { (from ≤ to) × (to ≤ limit) × (limit ≤ length out.old) }
    ensures { FilledIds out.old out.new from to limit id }
{
    if to - from <= 2 * BLOCK {
        fill_short(out, from, to, limit, id);
    } else {
        fill_long(out, from, to, limit, id);
    }
}

// The group of each run, group by group.
pub fn group_ids(offsets: &[usize], out_ids: &mut [usize]) -> usize
    requires { (start_and_rise offsets.now ≡ true) × (last_offset 0 offsets.now ≤ length out_ids.old) }
    ensures { (result ≡ length (ids_at offsets.now)) × (out_ids.new ≡ over (ids_at offsets.now) out_ids.old) }
{
    let limit = questions::last_offset(offsets);
    let mut from: usize = 0;
    for group in 0..sequence::count(offsets) {
        let to = offsets[group + 1];
        fill_group(out_ids, from, to, limit, group);
        from = to;
    }
    from
}
