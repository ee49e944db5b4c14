// Workers that assume what the call has asked. The ends are valid.
ghost use Rattle.std.specs.Prelude.{◌<◌, ◌≡◌, length, Some};
ghost use Rattle.num.specs.Numbers.{operation};
ghost use Rattle.column.specs.Combine.{many, folded, combined};
ghost use Rattle.column.specs.Flat.{columns, flat};
ghost use Rattle.column.specs.Runs.{Fills};
ghost use Rattle.many.specs.Workers.{Paired};
ghost use Rattle.zip_many.specs.Workers.{Combinable, Zippable};

use column::inner::Writer;
use many::inner::{read_current, step};
use plan::inner::SPENT;

// What the columns show, folded from the first one.
fn fold_by(code: u8, shown: &[i64]) -> i64
    requires { 0 < length shown.now }
    ensures { result ≡ folded (operation code) shown.now }
{
    let mut value = shown[0];
    for c in 1..shown.len() {
        value = num::apply(code, value, shown[c]);
    }
    value
}

// The same, with a loop for each operation: where the code is written out, the compiler keeps its test out of the loop.
fn fold(code: u8, shown: &[i64]) -> i64
    requires { 0 < length shown.now }
    ensures { result ≡ folded (operation code) shown.now }
{
    match code {
        0 => fold_by(0, shown),
        1 => fold_by(1, shown),
        2 => fold_by(2, shown),
        3 => fold_by(3, shown),
        4 => fold_by(4, shown),
        5 => fold_by(5, shown),
        6 => fold_by(6, shown),
        7 => fold_by(7, shown),
        8 => fold_by(8, shown),
        _ => fold_by(code, shown),
    }
}

// What the columns show together, merged, with the columns' places in a lent buffer.
fn zip_walk(
    offsets: &[usize],
    ends: &[i64],
    values: &[i64],
    fill: i64,
    code: u8,
    places: &mut [usize],
    current: &mut [usize],
    shown: &mut [i64],
    out_ends: &mut [i64],
    out_values: &mut [i64],
) -> usize
    requires { Combinable offsets.now ends.now values.now places.old out_ends.old out_values.old
        × Paired ends.now values.now places.old current.old shown.old }
    ensures { Fills (combined (operation code) (many (Some fill) (columns (flat offsets.now ends.now values.now)))) out_ends out_values result }
{
    if ends.len() == 0 {
        return 0;
    }
    read_current(offsets, ends, values, fill, places, current, shown);
    let mut end = step(offsets, ends, values, fill, 0, places, current, shown);
    let first = fold(code, shown);
    let mut writer = Writer { at: 0, last: first };
    while end < SPENT {
        let value = fold(code, shown);
        writer = column::inner::push_merged(writer, out_ends, out_values, end as i64, value);
        end = step(offsets, ends, values, fill, end, places, current, shown);
    }
    writer.at + 1
}

pub fn zip_many(
    offsets: &[usize],
    ends: &[i64],
    values: &[i64],
    fill: i64,
    code: u8,
    out_ends: &mut [i64],
    out_values: &mut [i64],
) -> usize
    requires { Zippable offsets.now ends.now values.now out_ends.old out_values.old }
    ensures { Fills (combined (operation code) (many (Some fill) (columns (flat offsets.now ends.now values.now)))) out_ends out_values result }
{
    let k = offsets.len() - 1;
    let mut places = [0usize; rle::Rle::MAX_COLUMNS];
    let mut current = [0usize; rle::Rle::MAX_COLUMNS];
    let mut shown = [0i64; rle::Rle::MAX_COLUMNS];
    zip_walk(
        offsets,
        ends,
        values,
        fill,
        code,
        &mut places[..k],
        &mut current[..k],
        &mut shown[..k],
        out_ends,
        out_values,
    )
}
