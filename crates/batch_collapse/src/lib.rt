#![tactic(auto)]

// collapse of a batch.
pub mod inner;

ghost use Rattle.std.specs.Prelude.{◌*◌, true, [], ◌∷◌, ◌++◌, ◌≡◌, length, None};
ghost use Rattle.column.specs.Asking.{shown_asked};
ghost use Rattle.column.specs.Questions.{room, both};
ghost use Rattle.batch_index.specs.Workers.{LinkLent};
ghost use Rattle.batch.specs.Batch.{batch};
ghost use Rattle.batch_collapse.specs.Calls.{WritesCollapse};
ghost use Rattle.batch_collapse.specs.Calls as calls;
ghost use Rattle.batch_collapse.specs.Workers.{Together};

use batch_index::inner::links;
use column::answer::RleBatch;
use column::error::Refusal;

#[tactic(auto, using(plan::proofs::InTurn::in_turn), unfolding(crate::specs::Calls::collapse_asked))]
fn collapse_asks(
    keys: &[u32],
    offsets: &[usize],
    ends: &[i64],
    values: &[i64],
    new_keys: &[u32],
    code: u8,
) -> Result<(), Refusal>
    ensures { shown_asked result ≡ calls.collapse_asked (batch keys.now offsets.now ends.now values.now) new_keys.now code }
{
    questions::ask_code(0, 9, code)?;
    batch::ask_lengths(keys, offsets, ends, values)?;
    questions::ask_lengths(4, new_keys.len(), keys.len())?;
    batch::ask_content(keys, offsets, ends, values)
}

// 12, of the buffers for a batch and of a scratch pair.
fn ask_room(
    keys: usize,
    offsets: usize,
    runs: usize,
    scratch: usize,
    out_keys: usize,
    out_offsets: usize,
    out_ends: usize,
    out_values: usize,
    scratch_ends: usize,
    scratch_values: usize,
) -> Result<(), Refusal>
    ensures { shown_asked result ≡ room ((keys ∷ offsets ∷ both runs) ++ both scratch)
        (out_keys ∷ out_offsets ∷ out_ends ∷ out_values ∷ scratch_ends ∷ scratch_values ∷ []) }
{
    batch::ask_room(
        keys,
        offsets,
        runs,
        out_keys,
        out_offsets,
        out_ends,
        out_values,
    )?;
    questions::ask_room(4, scratch, scratch_ends)?;
    questions::ask_room(5, scratch, scratch_values)
}

// The groups, after the questions but 10 and 12. Links of the new keys go through three buffers, if these have room for them.
fn collapse_by(
    keys: &[u32],
    offsets: &[usize],
    ends: &[i64],
    values: &[i64],
    new_keys: &[u32],
    together: bool,
    first: &mut [u16],
    next: &mut [u16],
    positions: &mut [u32],
    fill: Option<i64>,
    code: u8,
    out_keys: &mut [u32],
    out_offsets: &mut [usize],
    out_ends: &mut [i64],
    out_values: &mut [i64],
    scratch_ends: &mut [i64],
    scratch_values: &mut [i64],
) -> Result<RleBatch, Refusal>
    requires { (calls.collapse_asked (batch keys.now offsets.now ends.now values.now) new_keys.now code ≡ None)
        × (together ≡ true → Together new_keys.now) × LinkLent new_keys.now first.old next.old positions.old }
    ensures { WritesCollapse (calls.collapse (batch keys.now offsets.now ends.now values.now) new_keys.now fill code)
        (2 * length ends.now) out_keys out_offsets out_ends out_values scratch_ends scratch_values result }
{
    inner::ask_groups(
        keys,
        offsets,
        ends,
        values,
        new_keys,
        together,
        &mut *first,
        &mut *next,
        &mut *positions,
        fill,
        code,
    )?;
    ask_room(
        keys.len(),
        keys.len() + 1,
        ends.len(),
        2 * ends.len(),
        out_keys.len(),
        out_offsets.len(),
        out_ends.len(),
        out_values.len(),
        scratch_ends.len(),
        scratch_values.len(),
    )?;
    let counts = inner::collapse(
        keys,
        offsets,
        ends,
        values,
        new_keys,
        together,
        first,
        next,
        positions,
        fill.unwrap_or(0),
        code,
        out_keys,
        out_offsets,
        out_ends,
        out_values,
        scratch_ends,
        scratch_values,
    );
    Ok(counts)
}

// The sequences of a batch gathered under new keys: those of one new key are combined one after another.
pub fn collapse(
    keys: &[u32],
    offsets: &[usize],
    ends: &[i64],
    values: &[i64],
    new_keys: &[u32],
    fill: Option<i64>,
    code: u8,
    out_keys: &mut [u32],
    out_offsets: &mut [usize],
    out_ends: &mut [i64],
    out_values: &mut [i64],
    scratch_ends: &mut [i64],
    scratch_values: &mut [i64],
) -> Result<RleBatch, Refusal>
    ensures { WritesCollapse (calls.collapse (batch keys.now offsets.now ends.now values.now) new_keys.now fill code)
        (2 * length ends.now) out_keys out_offsets out_ends out_values scratch_ends scratch_values result }
{
    collapse_asks(keys, offsets, ends, values, new_keys, code)?;
    let together = inner::stand_together(new_keys);
    if inner::links_pay(new_keys, together) {
        let mut first = [0u16; links::BLOCK];
        let mut next = [0u16; links::CAPACITY];
        let mut positions = [0u32; links::CAPACITY];
        return collapse_by(
            keys,
            offsets,
            ends,
            values,
            new_keys,
            together,
            &mut first,
            &mut next,
            &mut positions,
            fill,
            code,
            out_keys,
            out_offsets,
            out_ends,
            out_values,
            scratch_ends,
            scratch_values,
        );
    }
    let mut first = [0u16; 1];
    let mut next = [0u16; 1];
    let mut positions = [0u32; 1];
    collapse_by(
        keys,
        offsets,
        ends,
        values,
        new_keys,
        together,
        &mut first,
        &mut next,
        &mut positions,
        fill,
        code,
        out_keys,
        out_offsets,
        out_ends,
        out_values,
        scratch_ends,
        scratch_values,
    )
}
