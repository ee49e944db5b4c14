// Workers that assume what the calls have asked.
ghost use Rattle.std.specs.Prelude.{◌+◌, ◌≤◌, ◌<◌, true, ◌&&◌, cond, ◌++◌, map, ◌≡◌, length, Some, None, IfSome};
ghost use Rattle.column.specs.Asking.{shown_asked};
ghost use Rattle.batch_keys.specs.Workers.{block_size};
ghost use Rattle.batch.specs.Batch.{batch, entries};
ghost use Rattle.batch.specs.Workers.{ValidBatch, NextKept, KnownKeys, KeptOther, FillsCounts};
ghost use Rattle.batch_keys.specs.Calls.{once};
ghost use Rattle.batch_concat.specs.Calls.{concat_key, fit_keys};
ghost use Rattle.batch_concat.specs.Workers.{key_at, key_kept, ConcatRoom};

use batch::inner::lookup::Lookup;
use batch::inner::part_at;
use batch::two::Joined;
use column::answer::RleBatch;
use column::error::Refusal;
use column::sequence;

fn both(first: bool, second: bool) -> bool
    ensures { result ≡ first && second }
{
    if first {
        return second;
    }
    false
}

// What is at a place, where its key does not stand before. The other batch's key is looked for at `near` first.
fn key_at(
    a_keys: &[u32],
    b_keys: &[u32],
    lookup: Lookup,
    at: usize,
    near: usize,
    block: &mut [u32],
) -> Option<Joined>
    requires { KnownKeys a_keys.now b_keys.now lookup × (at < length a_keys.now + length b_keys.now)
        × KeptOther a_keys.now b_keys.now lookup.indexed block.old at }
    ensures { (result ≡ cond (key_kept a_keys.now b_keys.now at) (Some (key_at a_keys.now b_keys.now at)) None)
        × KeptOther a_keys.now b_keys.now lookup.indexed block.new (at + 1) }
{
    let a_order = lookup.a;
    let b_order = lookup.b;
    let other = batch::inner::lookup::find_other(a_keys, b_keys, lookup, at, near, block);
    if at < a_keys.len() {
        let key = a_keys[at];
        let a = batch_keys::inner::find(a_keys, a_order, at, key);
        if a == at {
            return Some(Joined {
                at,
                key,
                a,
                b: other,
            });
        }
        return None;
    }
    let position = at - a_keys.len();
    let key = b_keys[position];
    let b = batch_keys::inner::find(b_keys, b_order, position, key);
    if both(other == a_keys.len(), b == position) {
        return Some(Joined {
            at,
            key,
            a: other,
            b,
        });
    }
    None
}

// The next key that does not stand before, from a place on.
fn next_key(
    a_keys: &[u32],
    b_keys: &[u32],
    lookup: Lookup,
    from: usize,
    near: usize,
    block: &mut [u32],
) -> Option<Joined>
    requires { KnownKeys a_keys.now b_keys.now lookup × (from ≤ length a_keys.now + length b_keys.now)
        × KeptOther a_keys.now b_keys.now lookup.indexed block.old from }
    ensures { NextKept (key_at a_keys.now b_keys.now) (key_kept a_keys.now b_keys.now)
        (length a_keys.now + length b_keys.now) from result
        × IfSome result (λ joined. KeptOther a_keys.now b_keys.now lookup.indexed block.new (joined.at + 1)) }
{
    let places = a_keys.len() + b_keys.len();
    for at in from..places {
        let joined = key_at(a_keys, b_keys, lookup, at, near, &mut *block);
        if joined.is_some() {
            return joined;
        }
    }
    None
}

// 7, of each key's joined length.
pub fn ask_joined(
    a_keys: &[u32],
    a_offsets: &[usize],
    a_ends: &[i64],
    a_values: &[i64],
    b_keys: &[u32],
    b_offsets: &[usize],
    b_ends: &[i64],
    b_values: &[i64],
    lookup: Lookup,
    block: &mut [u32],
) -> Result<(), Refusal>
    requires { ValidBatch (batch a_keys.now a_offsets.now a_ends.now a_values.now)
        × ValidBatch (batch b_keys.now b_offsets.now b_ends.now b_values.now)
        × KnownKeys a_keys.now b_keys.now lookup × (lookup.indexed ≡ true → length block.old ≡ block_size) }
    ensures { shown_asked result ≡ fit_keys (entries (batch a_keys.now a_offsets.now a_ends.now a_values.now))
        (entries (batch b_keys.now b_offsets.now b_ends.now b_values.now)) (once (a_keys.now ++ b_keys.now)) }
{
    let mut next = next_key(a_keys, b_keys, lookup, 0, 0, &mut *block);
    while let Some(joined) = next {
        let at = joined.at;
        let b = joined.b;
        let left = part_at(a_offsets, a_ends, joined.a);
        let right = part_at(b_offsets, b_ends, b);
        questions::ask_sum(sequence::length(left), sequence::length(right))?;
        next = next_key(a_keys, b_keys, lookup, at + 1, b + 1, &mut *block);
    }
    Ok(())
}

// Each key's sequences joined, after those of the keys before it.
pub fn concat_keys(
    a_keys: &[u32],
    a_offsets: &[usize],
    a_ends: &[i64],
    a_values: &[i64],
    b_keys: &[u32],
    b_offsets: &[usize],
    b_ends: &[i64],
    b_values: &[i64],
    lookup: Lookup,
    block: &mut [u32],
    out_keys: &mut [u32],
    out_offsets: &mut [usize],
    out_ends: &mut [i64],
    out_values: &mut [i64],
) -> RleBatch
    requires { ConcatRoom (batch a_keys.now a_offsets.now a_ends.now a_values.now)
        (batch b_keys.now b_offsets.now b_ends.now b_values.now)
        out_keys.old out_offsets.old out_ends.old out_values.old
        × KnownKeys a_keys.now b_keys.now lookup × (lookup.indexed ≡ true → length block.old ≡ block_size) }
    ensures { FillsCounts
        (map (concat_key (entries (batch a_keys.now a_offsets.now a_ends.now a_values.now))
        (entries (batch b_keys.now b_offsets.now b_ends.now b_values.now))) (once (a_keys.now ++ b_keys.now)))
        out_keys out_offsets out_ends out_values result }
{
    out_offsets[0] = 0;
    let mut used: usize = 0;
    let mut n: usize = 0;
    let mut next = next_key(a_keys, b_keys, lookup, 0, 0, &mut *block);
    while let Some(joined) = next {
        let at = joined.at;
        let key = joined.key;
        let a = joined.a;
        let b = joined.b;
        out_keys[n] = key;
        used += transform::inner::concat_two(
            part_at(a_offsets, a_ends, a),
            part_at(a_offsets, a_values, a),
            part_at(b_offsets, b_ends, b),
            part_at(b_offsets, b_values, b),
            &mut out_ends[used..],
            &mut out_values[used..],
        );
        n += 1;
        out_offsets[n] = used;
        next = next_key(a_keys, b_keys, lookup, at + 1, b + 1, &mut *block);
    }
    RleBatch {
        keys: n,
        runs: used,
    }
}
