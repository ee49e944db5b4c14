#![tactic(auto)]

// The questions of document 01, each answered for any arguments. Question 8, of keys, is in crate batch_keys.
ghost use Rattle.std.specs.Prelude.{◌+◌, true, ◌&&◌, [], ◌∷◌, ◌≡◌, drop};
ghost use Rattle.std.specs.Int.Signed.{lt_z};
ghost use Rattle.column.specs.Asking.{shown_asked, refusal, first_no, refused_in_key};
ghost use Rattle.column.specs.Flat.{flat_asked, flat};
ghost use Rattle.column.specs.Paper.{number_of, shown_by};
ghost use Rattle.column.specs.Questions.{listed, mask_listed, agree, paired, mask_agrees, used_within, start_and_rise, last_offset, offsets_rise, offsets_valid};
ghost use Rattle.column.specs.Questions.{ends_from, ends_valid, sequences_valid, at_most, not_negative, fits, run_by_run, intervals, side, is_missing, filled};
ghost use Rattle.column.specs.Questions.{long_enough, room_at, room, both, sequence_asked};
ghost use Rattle.column.specs.Runs.{to_nat, sequence};
ghost use Rattle.questions.specs.Workers.{ends_from_quarters};

use column::error::{Error, Refusal};
use column::{mask, sequence};

// The first length that does not fit i64.
const LIMIT: usize = 0x8000_0000_0000_0000;

// A "no" that carries no position.
fn no(error: Error) -> Result<(), Refusal>
    ensures { shown_asked result ≡ refusal (number_of error) (shown_by error) }
{
    Err(Refusal {
        error,
        in_key: None,
    })
}

// 1
pub fn ask_code(low: u8, high: u8, code: u8) -> Result<(), Refusal>
    ensures { shown_asked result ≡ listed low high code }
{
    if code < low {
        return no(Error::UnknownCode { code });
    }
    if high < code {
        return no(Error::UnknownCode { code });
    }
    Ok(())
}

pub fn ask_mask(mask: &[u8]) -> Result<(), Refusal>
    ensures { shown_asked result ≡ mask_listed mask.now }
{
    let i = mask::first_unlisted(mask);
    if i < mask.len() {
        let code = mask[i];
        no(Error::UnknownCode { code })
    } else {
        Ok(())
    }
}

// 2
pub fn ask_lengths(what: u8, left: usize, right: usize) -> Result<(), Refusal>
    ensures { shown_asked result ≡ agree what left right }
{
    if left == right {
        Ok(())
    } else {
        no(Error::LengthMismatch { what, left, right })
    }
}

// What 6 of 2.
pub fn ask_mask_length(mask: &[u8], ends: &[i64]) -> Result<(), Refusal>
    ensures { shown_asked result ≡ mask_agrees mask.now ends.now }
{
    if ends.len() == 0 {
        ask_lengths(6, mask.len(), 0)
    } else {
        ask_lengths(6, mask.len(), ends.len() - 1)
    }
}

pub fn ask_used(used: usize, ends: usize, values: usize) -> Result<(), Refusal>
    ensures { shown_asked result ≡ used_within used ends values }
{
    let shorter = num::smaller_count(ends, values);
    if used <= shorter {
        Ok(())
    } else {
        no(Error::LengthMismatch {
            what: 5,
            left: used,
            right: shorter,
        })
    }
}

// 3
fn start_and_rise(offsets: &[usize]) -> bool
    ensures { result ≡ start_and_rise offsets.now }
{
    if offsets.len() == 0 {
        return false;
    }
    if offsets[0] != 0 {
        return false;
    }
    let mut before = 0;
    for offset in offsets {
        if *offset < before {
            return false;
        }
        before = *offset;
    }
    true
}

// The last offset, or 0.
pub fn last_offset(offsets: &[usize]) -> usize
    ensures { result ≡ last_offset 0 offsets.now }
{
    offsets.last().copied().unwrap_or(0)
}

pub fn ask_offsets_rise(offsets: &[usize]) -> Result<(), Refusal>
    ensures { shown_asked result ≡ offsets_rise offsets.now }
{
    if start_and_rise(offsets) {
        Ok(())
    } else {
        no(Error::InvalidOffsets)
    }
}

pub fn ask_offsets(offsets: &[usize], ends: usize) -> Result<(), Refusal>
    ensures { shown_asked result ≡ offsets_valid offsets.now ends }
{
    if !start_and_rise(offsets) {
        return no(Error::InvalidOffsets);
    }
    if last_offset(offsets) == ends {
        Ok(())
    } else {
        no(Error::InvalidOffsets)
    }
}

// 4, end by end from an index on; `first` is the end before it.
fn ask_ends_from(ends: &[i64], from: usize, first: i64) -> Result<(), Refusal>
    ensures { shown_asked result ≡ ends_from from first (drop from ends.now) }
{
    let mut before = first;
    for i in from..ends.len() {
        let end = ends[i];
        if end <= before {
            return no(Error::InvalidEnds { index: i });
        }
        before = end;
    }
    Ok(())
}

// Whether each end in four quarters is above the one before. The quarters are read side by side: far memory brings four of them in little
// more time than one.
fn quarters_rise(ends: &[i64]) -> bool
    ensures { result ≡ true → ends_valid ends.now ≡ ends_from_quarters ends.now }
{
    let quarter = ends.len() / 4;
    let mut first: i64 = 0;
    let mut second = sequence::end_before(ends, quarter);
    let mut third = sequence::end_before(ends, quarter * 2);
    let mut fourth = sequence::end_before(ends, quarter * 3);
    for i in 0..quarter {
        let a = ends[i];
        let b = ends[quarter + i];
        let c = ends[quarter * 2 + i];
        let d = ends[quarter * 3 + i];
        if a <= first {
            return false;
        }
        if b <= second {
            return false;
        }
        if c <= third {
            return false;
        }
        if d <= fourth {
            return false;
        }
        first = a;
        second = b;
        third = c;
        fourth = d;
    }
    true
}

// 4
pub fn ask_ends(ends: &[i64]) -> Result<(), Refusal>
    ensures { shown_asked result ≡ ends_valid ends.now }
{
    if quarters_rise(ends) {
        let seen = ends.len() / 4 * 4;
        ask_ends_from(ends, seen, sequence::end_before(ends, seen))
    } else {
        ask_ends_from(ends, 0, 0)
    }
}

// What 3 of 2, and 4, of one sequence.
pub fn ask_sequence(ends: &[i64], values: &[i64]) -> Result<(), Refusal>
    ensures { shown_asked result ≡ first_no (paired (sequence ends.now values.now) ∷ ends_valid ends.now ∷ []) }
{
    ask_lengths(3, ends.len(), values.len())?;
    ask_ends(ends)
}

// The same answer, for the key or sequence at a position.
pub fn in_key(asked: Result<(), Refusal>, position: usize) -> Result<(), Refusal>
    ensures { shown_asked result ≡ refused_in_key position (shown_asked asked) }
{
    match asked {
        Ok(()) => Ok(()),
        Err(refusal) => Err(Refusal {
            error: refusal.error,
            in_key: Some(position),
        }),
    }
}

// 4, of sequences laid flat.
pub fn ask_sequences(offsets: &[usize], ends: &[i64]) -> Result<(), Refusal>
    ensures { shown_asked result ≡ sequences_valid offsets.now ends.now }
{
    for k in 0..sequence::count(offsets) {
        let own = sequence::part(ends, offsets[k], offsets[k + 1]);
        in_key(ask_ends(own), k)?;
    }
    Ok(())
}

// What 3 of 2, 3 and 4, of sequences laid flat.
pub fn ask_flat(offsets: &[usize], ends: &[i64], values: &[i64]) -> Result<(), Refusal>
    ensures { shown_asked result ≡ first_no (flat_asked (flat offsets.now ends.now values.now)) }
{
    ask_lengths(3, ends.len(), values.len())?;
    ask_offsets(offsets, ends.len())?;
    ask_sequences(offsets, ends)
}

// 5
pub fn ask_columns(limit: usize, columns: usize) -> Result<(), Refusal>
    ensures { shown_asked result ≡ at_most limit columns }
{
    if columns <= limit {
        Ok(())
    } else {
        no(Error::TooMany { number: columns })
    }
}

// 6
pub fn ask_run(index: usize, run: i64) -> Result<(), Refusal>
    ensures { shown_asked result ≡ not_negative index run }
{
    if run < 0 {
        no(Error::NegativeRun { index, run })
    } else {
        Ok(())
    }
}

// 7, of a length and a run after it; a negative number counts as 0.
pub fn ask_sum(length: i64, run: i64) -> Result<(), Refusal>
    ensures { shown_asked result ≡ fits (to_nat length + to_nat run) }
{
    ask_fits(sequence::to_nat(length) + sequence::to_nat(run))
}

// 7, of a new length.
pub fn ask_fits(length: usize) -> Result<(), Refusal>
    ensures { shown_asked result ≡ fits length }
{
    if length < LIMIT {
        Ok(())
    } else {
        no(Error::Overflow)
    }
}

// 6 and 7, run by run.
pub fn ask_runs(runs: &[i64]) -> Result<(), Refusal>
    ensures { shown_asked result ≡ run_by_run 0 0 runs.now }
{
    let mut total: usize = 0;
    for index in 0..runs.len() {
        let run = runs[index];
        ask_run(index, run)?;
        total += run as usize;
        ask_fits(total)?;
    }
    Ok(())
}

// 9
pub fn ask_intervals(starts: &[i64], ends: &[i64]) -> Result<(), Refusal>
    ensures { shown_asked result ≡ intervals starts.now ends.now }
{
    for index in 0..starts.len() {
        let start = starts[index];
        let end = sequence::entry_or(ends, index, 0);
        if start < 0 {
            return no(Error::InvalidInterval { index, start, end });
        }
        if end < start {
            return no(Error::InvalidInterval { index, start, end });
        }
    }
    Ok(())
}

// 10
fn lacks(length: i64, longest: i64, fill: Option<i64>) -> bool
    ensures { result ≡ lt_z length longest && is_missing fill }
{
    length < longest && fill.is_none()
}

pub fn ask_fills(
    left: i64,
    right: i64,
    fill_left: Option<i64>,
    fill_right: Option<i64>,
) -> Result<(), Refusal>
    ensures { shown_asked result ≡ filled left right (side left fill_left ∷ side right fill_right ∷ []) }
{
    let longest = num::larger(left, num::larger(right, 0));
    if lacks(left, longest, fill_left) {
        return no(Error::UnequalLength { left, right });
    }
    if lacks(right, longest, fill_right) {
        return no(Error::UnequalLength { left, right });
    }
    Ok(())
}

// 11
pub fn ask_length(requested: i64, required: i64) -> Result<(), Refusal>
    ensures { shown_asked result ≡ long_enough requested required }
{
    if requested < required {
        no(Error::LengthTooShort {
            requested,
            required,
        })
    } else {
        Ok(())
    }
}

// 12
pub fn ask_room(which: usize, needed: usize, given: usize) -> Result<(), Refusal>
    ensures { shown_asked result ≡ room_at which needed given }
{
    if needed <= given {
        Ok(())
    } else {
        no(Error::ShortBuffer {
            which,
            needed,
            given,
        })
    }
}

// 12, of buffers for offsets, ends and values.
pub fn ask_flat_room(
    offsets: usize,
    runs: usize,
    out_offsets: usize,
    out_ends: usize,
    out_values: usize,
) -> Result<(), Refusal>
    ensures { shown_asked result ≡ room (offsets ∷ both runs) (out_offsets ∷ out_ends ∷ out_values ∷ []) }
{
    ask_room(0, offsets, out_offsets)?;
    ask_room(1, runs, out_ends)?;
    ask_room(2, runs, out_values)
}

// 12, of a buffer for ends and one for values.
pub fn ask_both(needed: usize, ends: usize, values: usize) -> Result<(), Refusal>
    ensures { shown_asked result ≡ room (both needed) (ends ∷ values ∷ []) }
{
    ask_room(0, needed, ends)?;
    ask_room(1, needed, values)
}

// What 3 of 2, 4 and 12, of a call that makes a sequence out of one.
pub fn ask_sequence_into(
    ends: &[i64],
    values: &[i64],
    needed: usize,
    out_ends: usize,
    out_values: usize,
) -> Result<(), Refusal>
    ensures { shown_asked result ≡ sequence_asked (sequence ends.now values.now) needed (out_ends ∷ out_values ∷ []) }
{
    ask_sequence(ends, values)?;
    ask_both(needed, out_ends, out_values)
}
