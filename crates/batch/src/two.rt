// Two batches, each of which is handed in as its keys, its offsets, and its ends and values laid flat. Their keys stand one after the other:
// place n is position n of the first, or, after its keys, position n less their number of the second.
ghost use Rattle.std.specs.Prelude.{◌≡◌};
ghost use Rattle.column.specs.Asking.{shown_asked, first_no};
ghost use Rattle.batch.specs.Batch.{both_lengths, both_content, both_valid, batch};

use column::error::Refusal;

// What is at a place: the key, and its position in each batch, past the last where it has none.
#[derive(Clone, Copy)]
pub struct Joined {
    pub at: usize,
    pub key: u32,
    pub a: usize,
    pub b: usize,
}

// What 2 and what 3 of 2, of both batches.
fn ask_lengths(
    a_keys: &[u32],
    a_offsets: &[usize],
    a_ends: &[i64],
    a_values: &[i64],
    b_keys: &[u32],
    b_offsets: &[usize],
    b_ends: &[i64],
    b_values: &[i64],
) -> Result<(), Refusal>
    ensures { shown_asked result ≡ first_no
        (both_lengths (batch a_keys.now a_offsets.now a_ends.now a_values.now) (batch b_keys.now b_offsets.now b_ends.now b_values.now)) }
{
    questions::ask_lengths(2, a_offsets.len(), a_keys.len() + 1)?;
    questions::ask_lengths(2, b_offsets.len(), b_keys.len() + 1)?;
    questions::ask_lengths(3, a_ends.len(), a_values.len())?;
    questions::ask_lengths(3, b_ends.len(), b_values.len())
}

// 3 and 4, of both batches.
fn ask_content(
    a_keys: &[u32],
    a_offsets: &[usize],
    a_ends: &[i64],
    a_values: &[i64],
    b_keys: &[u32],
    b_offsets: &[usize],
    b_ends: &[i64],
    b_values: &[i64],
) -> Result<(), Refusal>
    ensures { shown_asked result ≡ first_no
        (both_content (batch a_keys.now a_offsets.now a_ends.now a_values.now) (batch b_keys.now b_offsets.now b_ends.now b_values.now)) }
{
    questions::ask_offsets(a_offsets, a_ends.len())?;
    questions::ask_offsets(b_offsets, b_ends.len())?;
    questions::ask_sequences(a_offsets, a_ends)?;
    questions::ask_sequences(b_offsets, b_ends)
}

// 2, 3 and 4, of both batches.
pub fn ask_batches(
    a_keys: &[u32],
    a_offsets: &[usize],
    a_ends: &[i64],
    a_values: &[i64],
    b_keys: &[u32],
    b_offsets: &[usize],
    b_ends: &[i64],
    b_values: &[i64],
) -> Result<(), Refusal>
    ensures { shown_asked
        result ≡ both_valid (batch a_keys.now a_offsets.now a_ends.now a_values.now) (batch b_keys.now b_offsets.now b_ends.now b_values.now) }
{
    ask_lengths(
        a_keys, a_offsets, a_ends, a_values, b_keys, b_offsets, b_ends, b_values,
    )?;
    ask_content(
        a_keys, a_offsets, a_ends, a_values, b_keys, b_offsets, b_ends, b_values,
    )
}
