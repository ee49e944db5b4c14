// Workers that assume what the calls have asked.
ghost use Rattle.std.specs.Prelude.{◌+◌, ◌≤◌, ◌≡◌, length, None};
ghost use Rattle.column.specs.Questions.{ends_valid};
ghost use Rattle.column.specs.Runs.{runs_of, Fills};
ghost use Rattle.batch.specs.Batch.{batch, entries};
ghost use Rattle.batch.specs.Workers.{FillsBatch};
ghost use Rattle.batch_map_rles.specs.Calls.{on_each};
ghost use Rattle.batch_map_rles.specs.Workers.{mapped, more, Mappable};

use batch::inner::part_at;

// What is done to the sequence of each key.
#[derive(Clone, Copy)]
pub enum Mapping {
    Shift { distance: i64, fill: i64 },
    Reversed,
    Slice { start: i64, end: i64 },
}

fn map_runs(
    mapping: Mapping,
    ends: &[i64],
    values: &[i64],
    out_ends: &mut [i64],
    out_values: &mut [i64],
) -> usize
    requires { (ends_valid ends.now ≡ None) × (length ends.now ≡ length values.now)
        × (length ends.now + more mapping ≤ length out_ends.old) × (length ends.now + more mapping ≤ length out_values.old) }
    ensures { Fills (mapped mapping (runs_of ends.now values.now)) out_ends out_values result }
{
    match mapping {
        Mapping::Shift { distance, fill } => {
            shift::inner::shift(ends, values, distance, fill, out_ends, out_values)
        }
        Mapping::Reversed => transform::inner::reversed(ends, values, out_ends, out_values),
        Mapping::Slice { start, end } => {
            let touched = slice::inner::search::touched(ends, start, end);
            slice::inner::slice(ends, values, touched, out_ends, out_values)
        }
    }
}

// The same keys, each with its new sequence after those of the keys before it.
pub fn map_rles(
    keys: &[u32],
    offsets: &[usize],
    ends: &[i64],
    values: &[i64],
    mapping: Mapping,
    out_keys: &mut [u32],
    out_offsets: &mut [usize],
    out_ends: &mut [i64],
    out_values: &mut [i64],
) -> usize
    requires { Mappable mapping (batch keys.now offsets.now ends.now values.now)
        out_keys.old out_offsets.old out_ends.old out_values.old }
    ensures { FillsBatch
        (on_each (mapped mapping) (entries (batch keys.now offsets.now ends.now values.now))) out_keys out_offsets out_ends out_values result }
{
    out_offsets[0] = 0;
    let mut used: usize = 0;
    for k in 0..keys.len() {
        out_keys[k] = keys[k];
        used += map_runs(
            mapping,
            part_at(offsets, ends, k),
            part_at(offsets, values, k),
            &mut out_ends[used..],
            &mut out_values[used..],
        );
        out_offsets[k + 1] = used;
    }
    used
}
