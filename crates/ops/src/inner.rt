// The two zips, once every question is answered "yes".
ghost use Rattle.std.specs.Prelude.{◌≡◌, get_or, Some};
ghost use Rattle.num.specs.Numbers.{operation};
ghost use Rattle.column.specs.Combine.{combined};
ghost use Rattle.column.specs.Runs.{sequence, Fills};
ghost use Rattle.plan.specs.Calls.{segment_runs};
ghost use Rattle.ops.specs.Calls.{sides};
ghost use Rattle.ops.specs.Workers.{Zippable};

use column::inner::Writer;
use column::sequence;
use plan::inner::Segments;

// What two columns show together where a walk stands, a fill where a column is spent.
fn shown_at(
    code: u8,
    a_values: &[i64],
    b_values: &[i64],
    fill_a: i64,
    fill_b: i64,
    here: Segments,
) -> i64
    ensures { result ≡ operation code (get_or a_values.now here.a.index fill_a) (get_or b_values.now here.b.index fill_b) }
{
    let x = sequence::entry_or(a_values, here.a.index, fill_a);
    let y = sequence::entry_or(b_values, here.b.index, fill_b);
    num::apply(code, x, y)
}

pub fn zip_with(
    a_ends: &[i64],
    a_values: &[i64],
    b_ends: &[i64],
    b_values: &[i64],
    fill_a: i64,
    fill_b: i64,
    code: u8,
    out_ends: &mut [i64],
    out_values: &mut [i64],
) -> usize
    requires { Zippable
        (sequence a_ends.now a_values.now) (sequence b_ends.now b_values.now) out_ends.old out_values.old }
    ensures { Fills
        (combined (operation code)
        (sides (sequence a_ends.now a_values.now) (sequence b_ends.now b_values.now) (Some fill_a) (Some fill_b)))
        out_ends out_values result }
{
    let total = a_ends.len() + b_ends.len();
    if total == 0 {
        return 0;
    }
    let mut here = Segments::start(a_ends, b_ends);
    let first = shown_at(code, a_values, b_values, fill_a, fill_b, here);
    let mut writer = Writer { at: 0, last: first };
    while here.more() {
        let segment = here.next(a_ends, b_ends);
        let end = segment.end;
        let value = shown_at(code, a_values, b_values, fill_a, fill_b, here);
        writer = column::inner::push_merged(writer, out_ends, out_values, end, value);
        here = segment.next;
    }
    writer.at + 1
}

pub fn zip_with_raw(
    a_ends: &[i64],
    a_values: &[i64],
    b_ends: &[i64],
    b_values: &[i64],
    fill_a: i64,
    fill_b: i64,
    code: u8,
    out_ends: &mut [i64],
    out_values: &mut [i64],
) -> usize
    requires { Zippable
        (sequence a_ends.now a_values.now) (sequence b_ends.now b_values.now) out_ends.old out_values.old }
    ensures { Fills
        (segment_runs (operation code)
        (sides (sequence a_ends.now a_values.now) (sequence b_ends.now b_values.now) (Some fill_a) (Some fill_b)))
        out_ends out_values result }
{
    let mut n: usize = 0;
    let mut here = Segments::start(a_ends, b_ends);
    while here.more() {
        let segment = here.next(a_ends, b_ends);
        let end = segment.end;
        let value = shown_at(code, a_values, b_values, fill_a, fill_b, here);
        out_ends[n] = end;
        out_values[n] = value;
        n += 1;
        here = segment.next;
    }
    n
}
