// Workers that assume what the call has asked.
ghost use Rattle.std.specs.Prelude.{true, map, ◌≡◌};
ghost use Rattle.batch_keys.specs.Workers.{Known, Blocks};
ghost use Rattle.reduce.specs.Calls.{reduction};
ghost use Rattle.reduce.specs.Workers.{FilledReductions};
ghost use Rattle.batch.specs.Batch.{batch, entries};
ghost use Rattle.batch_intervals.specs.Calls.{item_runs};
ghost use Rattle.batch_slice_reduce.specs.Workers.{Reducible};

use batch::inner::part_at;
use batch_keys::Order;

// The reduction of the slice of each interval.
fn slice_reduce_by(
    keys: &[u32],
    offsets: &[usize],
    ends: &[i64],
    values: &[i64],
    order: Order,
    get_keys: &[u32],
    starts: &[i64],
    stops: &[i64],
    indexed: bool,
    block: &mut [u32],
    code: u8,
    ddof: i64,
    out_kinds: &mut [u8],
    out_bits: &mut [u64],
) -> usize
    requires { Reducible (batch keys.now offsets.now ends.now values.now) get_keys.now starts.now stops.now
        out_kinds.old out_bits.old × Known order keys.now × (indexed ≡ true → Blocks keys.now block.old) }
    ensures { FilledReductions
        (map (reduction code ddof)
        (item_runs get_keys.now starts.now stops.now (entries (batch keys.now offsets.now ends.now values.now))))
        out_kinds.old out_kinds.new out_bits.old out_bits.new result }
{
    let mut at: usize = 0;
    for i in 0..starts.len() {
        at = batch_keys::inner::find_next(keys, order, at, get_keys, i, indexed, &mut *block);
        let reduction = reduce::inner::reduce_slice(
            part_at(offsets, ends, at),
            part_at(offsets, values, at),
            starts[i],
            stops[i],
            code,
            ddof,
        );
        out_kinds[i] = reduce::inner::kind(reduction);
        out_bits[i] = reduce::inner::bits(reduction);
    }
    starts.len()
}

// With a block for the positions of wanted keys, where an index of the keys pays.
pub fn slice_reduce(
    keys: &[u32],
    offsets: &[usize],
    ends: &[i64],
    values: &[i64],
    order: Order,
    get_keys: &[u32],
    starts: &[i64],
    stops: &[i64],
    code: u8,
    ddof: i64,
    out_kinds: &mut [u8],
    out_bits: &mut [u64],
) -> usize
    requires { Reducible (batch keys.now offsets.now ends.now values.now) get_keys.now starts.now stops.now
        out_kinds.old out_bits.old × Known order keys.now }
    ensures { FilledReductions
        (map (reduction code ddof)
        (item_runs get_keys.now starts.now stops.now (entries (batch keys.now offsets.now ends.now values.now))))
        out_kinds.old out_kinds.new out_bits.old out_bits.new result }
{
    if batch_keys::inner::index_pays(order, keys.len(), get_keys.len()) {
        let mut block = [0u32; batch_keys::inner::BLOCK];
        return slice_reduce_by(
            keys, offsets, ends, values, order, get_keys, starts, stops, true, &mut block, code,
            ddof, out_kinds, out_bits,
        );
    }
    let mut block = [0u32; 1];
    slice_reduce_by(
        keys, offsets, ends, values, order, get_keys, starts, stops, false, &mut block, code, ddof,
        out_kinds, out_bits,
    )
}
