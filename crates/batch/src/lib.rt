#![tactic(auto)]

// A batch is handed in as its keys, its offsets, and its ends and values laid flat.
pub mod inner;
pub mod two;

ghost use Rattle.std.specs.Prelude.{[], ◌∷◌, ◌≡◌};
ghost use Rattle.column.specs.Asking.{shown_asked, first_no};
ghost use Rattle.column.specs.Paper.{outcome_of};
ghost use Rattle.column.specs.Questions.{room, both};
ghost use Rattle.batch.specs.Batch.{lengths_asked, content_asked, batch_valid, batch};
ghost use Rattle.batch.specs.Calls.{WritesGot};
ghost use Rattle.batch.specs.Calls as calls;

use column::error::Refusal;

// What 2 and what 3 of 2.
pub fn ask_lengths(
    keys: &[u32],
    offsets: &[usize],
    ends: &[i64],
    values: &[i64],
) -> Result<(), Refusal>
    ensures { shown_asked result ≡ first_no (lengths_asked (batch keys.now offsets.now ends.now values.now)) }
{
    questions::ask_lengths(2, offsets.len(), keys.len() + 1)?;
    questions::ask_lengths(3, ends.len(), values.len())
}

// 3 and 4.
pub fn ask_content(
    keys: &[u32],
    offsets: &[usize],
    ends: &[i64],
    values: &[i64],
) -> Result<(), Refusal>
    ensures { shown_asked result ≡ first_no (content_asked (batch keys.now offsets.now ends.now values.now)) }
{
    questions::ask_offsets(offsets, ends.len())?;
    questions::ask_sequences(offsets, ends)
}

// 2, 3 and 4.
pub fn ask_batch(
    keys: &[u32],
    offsets: &[usize],
    ends: &[i64],
    values: &[i64],
) -> Result<(), Refusal>
    ensures { shown_asked result ≡ batch_valid (batch keys.now offsets.now ends.now values.now) }
{
    ask_lengths(keys, offsets, ends, values)?;
    ask_content(keys, offsets, ends, values)
}

// 12, of buffers for keys, offsets, ends and values.
pub fn ask_room(
    keys: usize,
    offsets: usize,
    runs: usize,
    out_keys: usize,
    out_offsets: usize,
    out_ends: usize,
    out_values: usize,
) -> Result<(), Refusal>
    ensures { shown_asked result ≡ room (keys ∷ offsets ∷ both runs) (out_keys ∷ out_offsets ∷ out_ends ∷ out_values ∷ []) }
{
    questions::ask_room(0, keys, out_keys)?;
    questions::ask_room(1, offsets, out_offsets)?;
    questions::ask_room(2, runs, out_ends)?;
    questions::ask_room(3, runs, out_values)
}

// A batch that may come from anywhere: only checked.
pub fn from_parts(
    keys: &[u32],
    offsets: &[usize],
    ends: &[i64],
    values: &[i64],
) -> Result<(), Refusal>
    ensures { outcome_of result ≡ calls.from_parts (batch keys.now offsets.now ends.now values.now) }
{
    ask_batch(keys, offsets, ends, values)?;
    batch_keys::ask_keys(keys)
}

// A copy of the sequence of a key.
pub fn get(
    keys: &[u32],
    offsets: &[usize],
    ends: &[i64],
    values: &[i64],
    key: u32,
    out_ends: &mut [i64],
    out_values: &mut [i64],
) -> Result<Option<usize>, Refusal>
    ensures { WritesGot (calls.get (batch keys.now offsets.now ends.now values.now) key) out_ends out_values result }
{
    let at = batch_index::inner::scan(keys, key);
    let found_ends = inner::part_at(offsets, ends, at);
    let found_values = inner::part_at(offsets, values, at);
    ask_batch(keys, offsets, ends, values)?;
    questions::ask_both(found_ends.len(), out_ends.len(), out_values.len())?;
    if at == keys.len() {
        return Ok(None);
    }
    inner::copy(found_ends, out_ends);
    inner::copy(found_values, out_values);
    Ok(Some(found_ends.len()))
}
