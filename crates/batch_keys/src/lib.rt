#![tactic(auto)]

// The keys of a batch: where one stands, and whether one is given twice.
pub mod inner;

ghost use Rattle.std.specs.Prelude.{◌≡◌};
ghost use Rattle.column.specs.Asking.{shown_asked};
ghost use Rattle.column.specs.Paper.{outcome_of};
ghost use Rattle.column.specs.Questions.{distinct_keys};
ghost use Rattle.batch_index.specs.Workers.{FirstDouble};
ghost use Rattle.batch_keys.specs.Calls as calls;
ghost use Rattle.batch_keys.specs.Workers.{ascends};

use column::error::{Error, Refusal};

// What is known of keys: each is above the one before it; or none is given twice.
#[derive(Clone, Copy)]
pub enum Order {
    Ascending,
    Distinct,
    Unknown,
}

// Whether each key is above the one before it.
fn ascends(keys: &[u32]) -> bool
    ensures { result ≡ ascends keys.now }
{
    for i in 1..keys.len() {
        let before = keys[i - 1];
        let key = keys[i];
        if key <= before {
            return false;
        }
    }
    true
}

// The lowest position of a key that stands before it too, or how many keys there are.
pub fn first_duplicate(keys: &[u32]) -> usize
    ensures { FirstDouble keys.now result }
{
    if ascends(keys) {
        return keys.len();
    }
    batch_index::inner::duplicates::first_duplicate(keys)
}

// 8
pub fn ask_keys(keys: &[u32]) -> Result<(), Refusal>
    ensures { shown_asked result ≡ distinct_keys keys.now }
{
    let position = first_duplicate(keys);
    if position < keys.len() {
        Err(Refusal {
            error: Error::DuplicateKey { position },
            in_key: None,
        })
    } else {
        Ok(())
    }
}

// The lowest position of a key.
pub fn position(keys: &[u32], key: u32) -> Result<Option<usize>, Refusal>
    ensures { outcome_of result ≡ calls.position keys.now key }
{
    let at = batch_index::inner::scan(keys, key);
    if at < keys.len() {
        Ok(Some(at))
    } else {
        Ok(None)
    }
}
