// Workers that assume what the calls have asked.
ghost use Rattle.std.specs.Prelude.{true, map, ◌≡◌, length};
ghost use Rattle.num.specs.Numbers.{saturated};
ghost use Rattle.column.specs.Lists.{total};
ghost use Rattle.batch_keys.specs.Workers.{Known, Blocks};
ghost use Rattle.column.specs.Workers.{FillsFlat};
ghost use Rattle.batch.specs.Batch.{batch, entries};
ghost use Rattle.batch_intervals.specs.Calls.{item_runs};
ghost use Rattle.batch_intervals.specs.Workers.{Intervals};
ghost use Rattle.batch_getitems.specs.Workers.{Gettable};

use batch::inner::part_at;
use batch_keys::Order;
use slice::inner::search;

// How many runs the slices of all intervals have, saturating at usize::MAX.
fn count_items_by(
    keys: &[u32],
    offsets: &[usize],
    ends: &[i64],
    values: &[i64],
    order: Order,
    get_keys: &[u32],
    starts: &[i64],
    stops: &[i64],
    indexed: bool,
    block: &mut [u32],
) -> usize
    requires { Intervals (batch keys.now offsets.now ends.now values.now) get_keys.now starts.now stops.now
        × Known order keys.now × (indexed ≡ true → Blocks keys.now block.old) }
    ensures { result ≡ saturated
        (total (map length (item_runs get_keys.now starts.now stops.now (entries (batch keys.now offsets.now ends.now values.now))))) }
{
    let mut total: usize = 0;
    let mut at: usize = 0;
    for i in 0..starts.len() {
        at = batch_keys::inner::find_next(keys, order, at, get_keys, i, indexed, &mut *block);
        let touched = search::touched(part_at(offsets, ends, at), starts[i], stops[i]);
        total = num::saturating_add(total, touched.count);
    }
    total
}

// With a block for the positions of wanted keys, where an index of the keys pays.
pub fn count_items(
    keys: &[u32],
    offsets: &[usize],
    ends: &[i64],
    values: &[i64],
    order: Order,
    get_keys: &[u32],
    starts: &[i64],
    stops: &[i64],
) -> usize
    requires { Intervals (batch keys.now offsets.now ends.now values.now) get_keys.now starts.now stops.now
        × Known order keys.now }
    ensures { result ≡ saturated
        (total (map length (item_runs get_keys.now starts.now stops.now (entries (batch keys.now offsets.now ends.now values.now))))) }
{
    if batch_keys::inner::index_pays(order, keys.len(), get_keys.len()) {
        let mut block = [0u32; batch_keys::inner::BLOCK];
        return count_items_by(
            keys, offsets, ends, values, order, get_keys, starts, stops, true, &mut block,
        );
    }
    let mut block = [0u32; 1];
    count_items_by(
        keys, offsets, ends, values, order, get_keys, starts, stops, false, &mut block,
    )
}

// The slice of each interval, after those of the intervals before it.
fn getitems_by(
    keys: &[u32],
    offsets: &[usize],
    ends: &[i64],
    values: &[i64],
    order: Order,
    get_keys: &[u32],
    starts: &[i64],
    stops: &[i64],
    indexed: bool,
    block: &mut [u32],
    out_offsets: &mut [usize],
    out_ends: &mut [i64],
    out_values: &mut [i64],
) -> usize
    requires { Gettable (batch keys.now offsets.now ends.now values.now) get_keys.now starts.now stops.now
        out_offsets.old out_ends.old out_values.old
        × Known order keys.now × (indexed ≡ true → Blocks keys.now block.old) }
    ensures { FillsFlat (item_runs get_keys.now starts.now stops.now (entries (batch keys.now offsets.now ends.now values.now)))
        out_offsets out_ends out_values result }
{
    out_offsets[0] = 0;
    let mut used: usize = 0;
    let mut at: usize = 0;
    for i in 0..starts.len() {
        at = batch_keys::inner::find_next(keys, order, at, get_keys, i, indexed, &mut *block);
        let part = part_at(offsets, ends, at);
        let touched = search::touched(part, starts[i], stops[i]);
        used += slice::inner::slice(
            part,
            part_at(offsets, values, at),
            touched,
            &mut out_ends[used..],
            &mut out_values[used..],
        );
        out_offsets[i + 1] = used;
    }
    used
}

// With a block for the positions of wanted keys, where an index of the keys pays.
pub fn getitems(
    keys: &[u32],
    offsets: &[usize],
    ends: &[i64],
    values: &[i64],
    order: Order,
    get_keys: &[u32],
    starts: &[i64],
    stops: &[i64],
    out_offsets: &mut [usize],
    out_ends: &mut [i64],
    out_values: &mut [i64],
) -> usize
    requires { Gettable (batch keys.now offsets.now ends.now values.now) get_keys.now starts.now stops.now
        out_offsets.old out_ends.old out_values.old × Known order keys.now }
    ensures { FillsFlat (item_runs get_keys.now starts.now stops.now (entries (batch keys.now offsets.now ends.now values.now)))
        out_offsets out_ends out_values result }
{
    if batch_keys::inner::index_pays(order, keys.len(), get_keys.len()) {
        let mut block = [0u32; batch_keys::inner::BLOCK];
        return getitems_by(
            keys,
            offsets,
            ends,
            values,
            order,
            get_keys,
            starts,
            stops,
            true,
            &mut block,
            out_offsets,
            out_ends,
            out_values,
        );
    }
    let mut block = [0u32; 1];
    getitems_by(
        keys,
        offsets,
        ends,
        values,
        order,
        get_keys,
        starts,
        stops,
        false,
        &mut block,
        out_offsets,
        out_ends,
        out_values,
    )
}
