#![tactic(auto)]

pub mod inner;

ghost use Rattle.std.specs.Prelude.{◌+◌, ◌-◌, ◌<◌, ◌^◌, [], ◌∷◌, ◌≡◌};
ghost use Rattle.column.specs.Asking.{shown_asked};
ghost use Rattle.column.specs.Paper.{WritesRuns};
ghost use Rattle.column.specs.Questions.{room, both};
ghost use Rattle.column.specs.Runs.{sequence};
ghost use Rattle.rle.specs.Calls as calls;

use column::error::Refusal;
use column::sequence;

// The used count of a sequence whose ends and values stand in lent buffers.
#[derive(Clone, Copy)]
pub struct Rle {
    pub runs: usize,
}

impl Rle {
    // How many columns a many-way call combines.
    pub const MAX_COLUMNS: usize = 128;

    // The empty sequence.
    pub fn empty() -> Self
        ensures { result.runs ≡ 0 }
    {
        Self { runs: 0 }
    }

    // The sequence with one more run after it, not merged; a run of 0 changes nothing.
    pub fn push_run(
        self,
        ends: &mut [i64],
        values: &mut [i64],
        run: i64,
        value: i64,
    ) -> Result<usize, Refusal>
        ensures { WritesRuns (λ _. calls.push_run (sequence ends.old values.old) self.runs run value) ends values result }
    {
        let used = self.runs;
        push_run_asks(ends, values, used, run)?;
        let n = inner::push_run(ends, values, used, run, value);
        Ok(n)
    }

    // The sequence up to a length, with a value at each new position; the last run grows if it has that value.
    pub fn extend_to(
        self,
        ends: &mut [i64],
        values: &mut [i64],
        length: i64,
        value: i64,
    ) -> Result<usize, Refusal>
        ensures { WritesRuns (λ _. calls.extend_to (sequence ends.old values.old) self.runs length value) ends values result }
    {
        let used = self.runs;
        extend_to_asks(ends, values, used, length)?;
        let n = inner::extend_to(ends, values, used, length, value);
        Ok(n)
    }
}

// The used entries are read as far as there are any; whether there are so many is the first question.
#[tactic(auto, using(column::proofs::FirstNo::ends_at, column::proofs::FirstNo::goes_on, column::proofs::FirstNo::alone), unfolding(crate::specs::Calls::push_run_asked))]
fn push_run_asks(ends: &[i64], values: &[i64], used: usize, run: i64) -> Result<(), Refusal>
    ensures { shown_asked result ≡ calls.push_run_asked (sequence ends.now values.now) used run }
{
    let present = sequence::part(ends, 0, used);
    let length = sequence::length(present);
    questions::ask_used(used, ends.len(), values.len())?;
    questions::ask_ends(present)?;
    questions::ask_run(used, run)?;
    questions::ask_sum(length, run)?;
    room_for_one(ends.len(), values.len(), used)
}

#[tactic(auto, using(column::proofs::FirstNo::ends_at, column::proofs::FirstNo::goes_on, column::proofs::FirstNo::alone), unfolding(crate::specs::Calls::extend_to_asked))]
fn extend_to_asks(ends: &[i64], values: &[i64], used: usize, length: i64) -> Result<(), Refusal>
    ensures { shown_asked result ≡ calls.extend_to_asked (sequence ends.now values.now) used length }
{
    let present = sequence::part(ends, 0, used);
    let required = sequence::length(present);
    questions::ask_used(used, ends.len(), values.len())?;
    questions::ask_ends(present)?;
    questions::ask_length(length, required)?;
    room_for_one(ends.len(), values.len(), used)
}

// One entry more than the used ones, of which there are any number.
fn room_for_one(ends: usize, values: usize, used: usize) -> Result<(), Refusal>
    ensures { used < 2 ^ 64 - 1 → shown_asked result ≡ room (both (used + 1)) (ends ∷ values ∷ []) }
{
    questions::ask_both(num::saturating_add(used, 1), ends, values)
}
