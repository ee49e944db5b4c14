// Workers that assume what the calls have asked.
ghost use Rattle.std.specs.Prelude.{◌+◌, ◌≤◌, ◌<◌, ◌^◌, true, ◌||◌, map, ◌≡◌, length, IfSome};
ghost use Rattle.num.specs.Numbers.{operation};
ghost use Rattle.batch_keys.specs.Workers.{block_size};
ghost use Rattle.batch.specs.Batch.{batch, entries};
ghost use Rattle.batch.specs.Workers.{ValidBatch, NextKept, KnownKeys, KeptOther, FillsCounts};
ghost use Rattle.batch_zip_with.specs.Calls.{keeps_left, keeps_right, pairs, zip_pair};
ghost use Rattle.batch_zip_with.specs.Workers.{places_of, pair_at, pair_kept, AsksPairs, ZipRoom};

use batch::inner::lookup::{Lookup, find_other};
use batch::inner::part_at;
use batch::two::Joined;
use column::answer::RleBatch;
use column::error::Refusal;
use column::sequence;

fn keeps_left(how: u8) -> bool
    ensures { result ≡ keeps_left how }
{
    if how == 0 {
        return true;
    }
    how == 2
}

fn keeps_right(how: u8) -> bool
    ensures { result ≡ keeps_right how }
{
    if how == 0 {
        return true;
    }
    how == 3
}

fn either(first: bool, second: bool) -> bool
    ensures { result ≡ first || second }
{
    if first {
        return true;
    }
    second
}

// How many places there are: the right's keys come after the left's where its own are kept.
fn places(how: u8, a_keys: usize, b_keys: usize) -> usize
    requires { a_keys + b_keys < 2 ^ 64 }
    ensures { result ≡ places_of how a_keys b_keys }
{
    if keeps_right(how) {
        return a_keys + b_keys;
    }
    a_keys
}

// What is at a place, and whether it is kept. The other batch's key is looked for at `near` first.
fn pair_at(
    a_keys: &[u32],
    b_keys: &[u32],
    lookup: Lookup,
    how: u8,
    at: usize,
    near: usize,
    block: &mut [u32],
) -> (Joined, bool)
    requires { KnownKeys a_keys.now b_keys.now lookup × (at < length a_keys.now + length b_keys.now)
        × KeptOther a_keys.now b_keys.now lookup.indexed block.old at }
    ensures { (result ≡ (pair_at a_keys.now b_keys.now at, pair_kept how a_keys.now b_keys.now at))
        × KeptOther a_keys.now b_keys.now lookup.indexed block.new (at + 1) }
{
    let other = find_other(a_keys, b_keys, lookup, at, near, block);
    if at < a_keys.len() {
        let key = a_keys[at];
        let found = other < b_keys.len();
        let pair = Joined {
            at,
            key,
            a: at,
            b: other,
        };
        return (pair, either(keeps_left(how), found));
    }
    let b = at - a_keys.len();
    let key = b_keys[b];
    let found = other < a_keys.len();
    let pair = Joined {
        at,
        key,
        a: other,
        b,
    };
    (pair, !found)
}

// After a position of the other batch, or `near` where it is past the last.
fn next_after(position: usize, keys: usize, near: usize) -> usize {
    if position < keys {
        return position + 1;
    }
    near
}

// Where the next key is looked for first: after the last that was found.
fn near_after(pair: Joined, a_keys: usize, b_keys: usize, near: usize) -> usize {
    let a = pair.a;
    let b = pair.b;
    if pair.at < a_keys {
        return next_after(b, b_keys, near);
    }
    next_after(a, a_keys, near)
}

// The next pair of the join, from a place on.
fn next_pair(
    a_keys: &[u32],
    b_keys: &[u32],
    lookup: Lookup,
    how: u8,
    from: usize,
    first_near: usize,
    block: &mut [u32],
) -> Option<Joined>
    requires { KnownKeys a_keys.now b_keys.now lookup × (from ≤ places_of how (length a_keys.now) (length b_keys.now))
        × KeptOther a_keys.now b_keys.now lookup.indexed block.old from }
    ensures { NextKept (pair_at a_keys.now b_keys.now) (pair_kept how a_keys.now b_keys.now)
        (places_of how (length a_keys.now) (length b_keys.now)) from result
        × IfSome result (λ pair. KeptOther a_keys.now b_keys.now lookup.indexed block.new (pair.at + 1)) }
{
    let places = places(how, a_keys.len(), b_keys.len());
    let mut near = first_near;
    for at in from..places {
        let (pair, kept) = pair_at(a_keys, b_keys, lookup, how, at, near, &mut *block);
        if kept {
            return Some(pair);
        }
        near = near_after(pair, a_keys.len(), b_keys.len(), near);
    }
    None
}

// The answer to 10 of all pairs, and how many runs they have, saturating at usize::MAX.
#[derive(Clone, Copy)]
pub struct PairsAsked {
    pub asked: Result<(), Refusal>,
    pub runs: usize,
}

// The runs are those of all pairs with a "no", too.
pub fn ask_pairs(
    a_keys: &[u32],
    a_offsets: &[usize],
    a_ends: &[i64],
    a_values: &[i64],
    b_keys: &[u32],
    b_offsets: &[usize],
    b_ends: &[i64],
    b_values: &[i64],
    lookup: Lookup,
    how: u8,
    fill_a: Option<i64>,
    fill_b: Option<i64>,
    block: &mut [u32],
) -> PairsAsked
    requires { ValidBatch (batch a_keys.now a_offsets.now a_ends.now a_values.now)
        × ValidBatch (batch b_keys.now b_offsets.now b_ends.now b_values.now)
        × KnownKeys a_keys.now b_keys.now lookup × (lookup.indexed ≡ true → length block.old ≡ block_size) }
    ensures { AsksPairs fill_a fill_b
        (pairs how (entries (batch a_keys.now a_offsets.now a_ends.now a_values.now))
        (entries (batch b_keys.now b_offsets.now b_ends.now b_values.now))) result }
{
    let mut asked = Ok(());
    let mut runs: usize = 0;
    let mut n: usize = 0;
    let mut near: usize = 0;
    let mut next = next_pair(a_keys, b_keys, lookup, how, 0, 0, &mut *block);
    while let Some(pair) = next {
        let at = pair.at;
        let left = part_at(a_offsets, a_ends, pair.a);
        let right = part_at(b_offsets, b_ends, pair.b);
        let filled = questions::ask_fills(
            sequence::length(left),
            sequence::length(right),
            fill_a,
            fill_b,
        );
        asked = asked.and(questions::in_key(filled, n));
        runs = num::saturating_add(runs, left.len() + right.len());
        n += 1;
        near = near_after(pair, a_keys.len(), b_keys.len(), near);
        next = next_pair(a_keys, b_keys, lookup, how, at + 1, near, &mut *block);
    }
    PairsAsked { asked, runs }
}

// Each pair of the join combined, after those before it.
pub fn zip_pairs(
    a_keys: &[u32],
    a_offsets: &[usize],
    a_ends: &[i64],
    a_values: &[i64],
    b_keys: &[u32],
    b_offsets: &[usize],
    b_ends: &[i64],
    b_values: &[i64],
    lookup: Lookup,
    how: u8,
    fill_a: i64,
    fill_b: i64,
    code: u8,
    block: &mut [u32],
    out_keys: &mut [u32],
    out_offsets: &mut [usize],
    out_ends: &mut [i64],
    out_values: &mut [i64],
) -> RleBatch
    requires { ZipRoom (batch a_keys.now a_offsets.now a_ends.now a_values.now)
        (batch b_keys.now b_offsets.now b_ends.now b_values.now)
        (pairs how (entries (batch a_keys.now a_offsets.now a_ends.now a_values.now))
        (entries (batch b_keys.now b_offsets.now b_ends.now b_values.now)))
        out_keys.old out_offsets.old out_ends.old out_values.old
        × KnownKeys a_keys.now b_keys.now lookup × (lookup.indexed ≡ true → length block.old ≡ block_size) }
    ensures { FillsCounts
        (map (zip_pair (operation code) (Some fill_a) (Some fill_b))
        (pairs how (entries (batch a_keys.now a_offsets.now a_ends.now a_values.now))
        (entries (batch b_keys.now b_offsets.now b_ends.now b_values.now)))) out_keys out_offsets out_ends out_values result }
{
    out_offsets[0] = 0;
    let mut used: usize = 0;
    let mut n: usize = 0;
    let mut near: usize = 0;
    let mut next = next_pair(a_keys, b_keys, lookup, how, 0, 0, &mut *block);
    while let Some(pair) = next {
        let at = pair.at;
        let key = pair.key;
        let a = pair.a;
        let b = pair.b;
        out_keys[n] = key;
        used += ops::inner::zip_with(
            part_at(a_offsets, a_ends, a),
            part_at(a_offsets, a_values, a),
            part_at(b_offsets, b_ends, b),
            part_at(b_offsets, b_values, b),
            fill_a,
            fill_b,
            code,
            &mut out_ends[used..],
            &mut out_values[used..],
        );
        n += 1;
        out_offsets[n] = used;
        near = near_after(pair, a_keys.len(), b_keys.len(), near);
        next = next_pair(a_keys, b_keys, lookup, how, at + 1, near, &mut *block);
    }
    RleBatch {
        keys: n,
        runs: used,
    }
}
