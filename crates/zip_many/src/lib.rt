#![tactic(auto)]

// zip_many, above the walk over many columns.
pub mod inner;

ghost use Rattle.std.specs.Prelude.{[], ◌∷◌, map, ◌≡◌};
ghost use Rattle.column.specs.Asking.{shown_asked};
ghost use Rattle.column.specs.Flat.{flat};
ghost use Rattle.column.specs.Lists.{parts};
ghost use Rattle.column.specs.Paper.{WritesRuns};
ghost use Rattle.column.specs.Runs.{length_of_ends};
ghost use Rattle.zip_many.specs.Calls as calls;
ghost use Rattle.zip_many.specs.Workers.{LengthsOf};

use column::error::Refusal;
use column::sequence;

// The least and the greatest length of columns.
#[derive(Clone, Copy)]
pub struct Lengths {
    pub least: i64,
    pub greatest: i64,
}

fn least_and_greatest(offsets: &[usize], ends: &[i64]) -> Lengths
    ensures { LengthsOf (map length_of_ends (parts offsets.now ends.now)) result }
{
    if offsets.len() < 2 {
        return Lengths {
            least: 0,
            greatest: 0,
        };
    }
    let mut least = many::inner::length_at(offsets, ends, 0);
    let mut greatest = least;
    for c in 1..sequence::count(offsets) {
        let length = many::inner::length_at(offsets, ends, c);
        least = num::smaller(least, length);
        greatest = num::larger(greatest, length);
    }
    Lengths { least, greatest }
}

// The least and the greatest length stand for all: a column that is shorter than another lacks its fill exactly if the shortest does.
#[tactic(auto, using(plan::proofs::InTurn::in_turn), unfolding(crate::specs::Calls::zip_many_asked))]
fn zip_many_asks(
    offsets: &[usize],
    ends: &[i64],
    values: &[i64],
    fill: Option<i64>,
    code: u8,
    out_ends: usize,
    out_values: usize,
) -> Result<(), Refusal>
    ensures { shown_asked result ≡ calls.zip_many_asked (flat offsets.now ends.now values.now) fill code (out_ends ∷ out_values ∷ []) }
{
    let k = sequence::count(offsets);
    let lengths = least_and_greatest(offsets, ends);
    questions::ask_code(0, 9, code)?;
    questions::ask_flat(offsets, ends, values)?;
    questions::ask_columns(rle::Rle::MAX_COLUMNS, k)?;
    questions::ask_fills(lengths.least, lengths.greatest, fill, fill)?;
    questions::ask_both(ends.len(), out_ends, out_values)
}

// Many columns combined position by position, folded from the first, merged.
pub fn zip_many(
    offsets: &[usize],
    ends: &[i64],
    values: &[i64],
    fill: Option<i64>,
    code: u8,
    out_ends: &mut [i64],
    out_values: &mut [i64],
) -> Result<usize, Refusal>
    ensures { WritesRuns (calls.zip_many (flat offsets.now ends.now values.now) fill code) out_ends out_values result }
{
    zip_many_asks(
        offsets,
        ends,
        values,
        fill,
        code,
        out_ends.len(),
        out_values.len(),
    )?;
    let n = inner::zip_many(
        offsets,
        ends,
        values,
        fill.unwrap_or(0),
        code,
        out_ends,
        out_values,
    );
    Ok(n)
}
