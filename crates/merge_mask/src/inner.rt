// Workers that assume what the calls have asked.
ghost use Rattle.std.specs.Prelude.{ℕ, ◌+◌, ◌-◌, ◌≤◌, ◌<◌, ◌^◌, List, ◌≡◌, length};
ghost use Rattle.column.specs.Runs.{runs_of, Fills};
ghost use Rattle.merge_mask.specs.Calls.{mask_runs, neighbours};
ghost use Rattle.column.specs.Workers.{place_after};
ghost use Rattle.merge_mask.specs.Workers.{kept_after, Writable, WroteRun, Mergeable, Tells};

// The group that is being written: its place, and the run whose value it keeps.
#[derive(Clone, Copy)]
pub struct GroupWriter {
    pub at: usize,
    pub kept: usize,
}

// A run goes to the place of the group that it joins, or after it.
pub fn place_after(at: usize, joins: bool) -> usize
    requires { at + 1 < 2 ^ 64 }
    ensures { result ≡ place_after joins at }
{
    if joins { at } else { at + 1 }
}

// The run is chosen and its value read afterwards: with the values to choose from, the choice becomes a branch that reads one of them.
fn kept_after(kept: usize, joins: bool, last: bool, run: usize) -> usize
    ensures { result ≡ kept_after joins last kept run }
{
    if joins {
        if last { run } else { kept }
    } else {
        run
    }
}

// One more run, in the group before it or in one of its own.
fn write_run(
    writer: GroupWriter,
    joins: bool,
    last: bool,
    ends: &[i64],
    values: &[i64],
    run: usize,
    out_ends: &mut [i64],
    out_values: &mut [i64],
) -> GroupWriter
    requires { Writable writer joins ends.now values.now run out_ends.old out_values.old }
    ensures { WroteRun writer
        joins last ends.now values.now run out_ends.old out_ends.new out_values.old out_values.new result }
{
    let at = place_after(writer.at, joins);
    let kept = kept_after(writer.kept, joins, last, run);
    let end = ends[run];
    let value = values[kept];
    out_ends[at] = end;
    out_values[at] = value;
    GroupWriter { at, kept }
}

// A run for each group, where `joins` tells of a run and the next whether they are in one group.
fn merge_groups<F: Fn(usize, usize) -> bool>(
    ends: &[i64],
    values: &[i64],
    keep: u8,
    joins: F,
    out_ends: &mut [i64],
    out_values: &mut [i64],
) -> usize
    requires ready { Mergeable ends.now values.now out_ends.old out_values.old }
    requires told { (run : ℕ) → 0 < run → run < length ends.now → F.pre joins (run - 1) run }
    ensures { (mask : List ℕ) → Tells (F.post joins) mask (length ends.now)
        → Fills (mask_runs keep mask (runs_of ends.now values.now)) out_ends out_values result }
{
    if ends.len() == 0 {
        return 0;
    }
    let last = keep != 0;
    let first = GroupWriter { at: 0, kept: 0 };
    let mut writer = write_run(first, true, last, ends, values, 0, out_ends, out_values);
    for run in 1..ends.len() {
        let joined = joins(run - 1, run);
        writer = write_run(
            writer, joined, last, ends, values, run, out_ends, out_values,
        );
    }
    writer.at + 1
}

// The groups that a mask makes.
pub fn merge_mask(
    ends: &[i64],
    values: &[i64],
    mask: &[u8],
    keep: u8,
    out_ends: &mut [i64],
    out_values: &mut [i64],
) -> usize
    requires { Mergeable ends.now values.now out_ends.old out_values.old × (length mask.now ≡ length ends.now - 1) }
    ensures { Fills (mask_runs keep mask.now (runs_of ends.now values.now)) out_ends out_values result }
{
    let joins = |run: usize, _next: usize| mask[run] == 1;
    merge_groups(ends, values, keep, joins, out_ends, out_values)
}

// The groups of neighbours of which the operation holds.
pub fn merge_by(
    ends: &[i64],
    values: &[i64],
    code: u8,
    out_ends: &mut [i64],
    out_values: &mut [i64],
) -> usize
    requires { Mergeable ends.now values.now out_ends.old out_values.old × (7 ≤ code) × (code ≤ 8) }
    ensures { Fills (mask_runs 0 (neighbours code values.now) (runs_of ends.now values.now)) out_ends out_values result }
{
    let joins = |run: usize, next: usize| num::holds(code, values[run], values[next]);
    merge_groups(ends, values, 0, joins, out_ends, out_values)
}
