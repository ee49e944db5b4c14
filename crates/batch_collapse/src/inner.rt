// Workers that assume what the calls have asked.
ghost use Rattle.std.specs.Prelude.{◌+◌, ◌*◌, ◌≤◌, ◌<◌, ◌^◌, true, false, ◌++◌, map, ◌≡◌, leb, length, get_or, take, drop};
ghost use Rattle.num.specs.Numbers.{operation};
ghost use Rattle.column.specs.Asking.{shown_asked};
ghost use Rattle.column.specs.Combine.{combined};
ghost use Rattle.column.specs.Runs.{sequence, over};
ghost use Rattle.batch_index.specs.Workers.{doubled, NextPosition, Linked, LinkLent, Chains, Listed};
ghost use Rattle.ops.specs.Calls.{sides};
ghost use Rattle.batch.specs.Batch.{batch};
ghost use Rattle.batch_keys.specs.Calls.{once};
ghost use Rattle.batch_collapse.specs.Calls.{collapse_runs, filled_group, members, renamed, filled_groups, collapse_key};
ghost use Rattle.batch_collapse.specs.Workers.{Together, NextGroup, Chained, AtGroup, Grouped, member_runs, Foldable};
ghost use Rattle.batch_collapse.specs.Workers.{FoldedMember, FoldRoom, Folded, FilledGroup, CollapseRoom, FilledGroups};

use batch::inner::{copy, part_at};
use batch_index::inner::links;
use batch_index::inner::links::{Links, Member};
use column::answer::RleBatch;
use column::error::Refusal;
use column::sequence;

// A group, as it is found: its first member, and the links by which the others are.
#[derive(Clone, Copy)]
pub struct Group {
    links: Links,
    first: Member,
}

// Whether no key is below the one before it.
fn never_fall(keys: &[u32]) -> bool
    ensures { result ≡ true → Together keys.now }
{
    for i in 1..keys.len() {
        let before = keys[i - 1];
        let key = keys[i];
        if key < before {
            return false;
        }
    }
    true
}

// Whether it is known that equal keys stand together: the keys never fall, or none is given twice.
pub fn stand_together(keys: &[u32]) -> bool
    ensures { result ≡ true → Together keys.now }
{
    if never_fall(keys) {
        return true;
    }
    batch_keys::first_duplicate(keys) == keys.len()
}

// Whether the new keys are linked: they do not stand together, and are not so few that a scan is quicker.
pub fn links_pay(keys: &[u32], together: bool) -> bool
    ensures { result ≡ true → length keys.now < 2 ^ 32 }
{
    if together {
        return false;
    }
    if keys.len() < 128 {
        return false;
    }
    keys.len() < 0x1_0000_0000
}

// Whether the key at a position stands before it too.
fn stands_before(keys: &[u32], together: bool, i: usize) -> bool
    requires { (together ≡ true → Together keys.now) × (i < length keys.now) }
    ensures { result ≡ doubled keys.now i }
{
    if i == 0 {
        return false;
    }
    let key = keys[i];
    if together {
        return key == keys[i - 1];
    }
    batch_index::inner::scan(&keys[..i], key) < i
}

// The same, by the first entry of the key if it is linked.
fn is_again(keys: &[u32], together: bool, links: Links, entry: usize, i: usize) -> bool
    requires { (together ≡ true → Together keys.now) × (i < length keys.now) × (links.linked ≡ true → leb 2048 entry ≡ doubled keys.now i) }
    ensures { result ≡ doubled keys.now i }
{
    if links.linked {
        return links::CAPACITY <= entry;
    }
    stands_before(keys, together, i)
}

fn group_at(links: Links, at: usize, entry: usize) -> Group
    ensures { (result.links ≡ links) × (result.first.at ≡ at) × (result.first.entry ≡ entry) }
{
    let first = Member { at, entry };
    Group { links, first }
}

// The next position, from one on, of a key that does not stand before it too.
fn next_group(
    keys: &[u32],
    together: bool,
    links: Links,
    from: usize,
    first: &mut [u16],
    next: &mut [u16],
    positions: &mut [u32],
) -> Group
    requires { (together ≡ true → Together keys.now) × (from ≤ length keys.now) × (links.from ≤ from)
        × Linked keys.now first.old next.old positions.old links × LinkLent keys.now first.old next.old positions.old }
    ensures { NextGroup keys.now from result.first.at × AtGroup keys.now first.new next.new positions.new result }
{
    let mut links = links;
    for i in from..keys.len() {
        links = links::link(keys, links, i, &mut *first, &mut *next, &mut *positions);
        let entry = links::first_entry(links, &*first, i);
        if !is_again(keys, together, links, entry, i) {
            return group_at(links, i, entry);
        }
    }
    group_at(links, keys.len(), links::CAPACITY)
}

// The next position of the key at `last`, after that.
fn next_equal(keys: &[u32], together: bool, last: usize) -> usize
    requires { (together ≡ true → Together keys.now) × (last < length keys.now) }
    ensures { NextPosition (get_or keys.now last 0) keys.now (last + 1) result }
{
    let key = keys[last];
    let next = last + 1;
    if !together {
        return batch_index::inner::scan_from(keys, next, key);
    }
    if next < keys.len() {
        if keys[next] == key {
            return next;
        }
    }
    keys.len()
}

// The next member of the group of `last`.
fn next_member(
    keys: &[u32],
    together: bool,
    links: Links,
    next: &[u16],
    positions: &[u32],
    last: Member,
) -> Member
    requires { (together ≡ true → Together keys.now) × (last.at < length keys.now) × Chains keys.now next.now positions.now links
        × Listed keys.now positions.now links last }
    ensures { NextPosition (get_or keys.now last.at 0) keys.now (last.at + 1) result.at
        × Listed keys.now positions.now links result }
{
    if links.linked {
        return links::next_entry(keys, links, next, positions, last.entry);
    }
    Member {
        at: next_equal(keys, together, last.at),
        entry: links::CAPACITY,
    }
}

// 10 of a group, of which `first` is the position of the first member, where no fill is given.
fn ask_group(
    keys: &[u32],
    offsets: &[usize],
    ends: &[i64],
    values: &[i64],
    new_keys: &[u32],
    together: bool,
    group: Group,
    next: &[u16],
    positions: &[u32],
    code: u8,
) -> Result<(), Refusal>
    requires { Grouped (batch keys.now offsets.now ends.now values.now) new_keys.now together
        × (group.first.at < length new_keys.now) × (doubled new_keys.now group.first.at ≡ false)
        × Chained new_keys.now next.now positions.now group }
    ensures { shown_asked result ≡ filled_group (operation code)
        None (members (renamed (batch keys.now offsets.now ends.now values.now) new_keys.now) (get_or new_keys.now group.first.at 0)) }
{
    let links = group.links;
    let first = group.first.at;
    let length = sequence::length(part_at(offsets, ends, first));
    let mut member = next_member(new_keys, together, links, next, positions, group.first);
    while member.at < new_keys.len() {
        let at = member.at;
        let other = sequence::length(part_at(offsets, ends, at));
        questions::ask_fills(length, other, None, None)?;
        member = next_member(new_keys, together, links, next, positions, member);
    }
    Ok(())
}

// 10 of each group, where no fill is given.
fn ask_all_groups(
    keys: &[u32],
    offsets: &[usize],
    ends: &[i64],
    values: &[i64],
    new_keys: &[u32],
    together: bool,
    first: &mut [u16],
    next: &mut [u16],
    positions: &mut [u32],
    code: u8,
) -> Result<(), Refusal>
    requires { Grouped (batch keys.now offsets.now ends.now values.now) new_keys.now together
        × LinkLent new_keys.now first.old next.old positions.old }
    ensures { shown_asked result ≡ filled_groups
        (operation code) None (renamed (batch keys.now offsets.now ends.now values.now) new_keys.now) (once new_keys.now) }
{
    let mut n: usize = 0;
    let mut group = next_group(
        new_keys,
        together,
        links::unlinked(0, 0),
        0,
        &mut *first,
        &mut *next,
        &mut *positions,
    );
    while group.first.at < new_keys.len() {
        let filled = ask_group(
            keys,
            offsets,
            ends,
            values,
            new_keys,
            together,
            group,
            &*next,
            &*positions,
            code,
        );
        questions::in_key(filled, n)?;
        n += 1;
        group = next_group(
            new_keys,
            together,
            group.links,
            group.first.at + 1,
            &mut *first,
            &mut *next,
            &mut *positions,
        );
    }
    Ok(())
}

// 10
pub fn ask_groups(
    keys: &[u32],
    offsets: &[usize],
    ends: &[i64],
    values: &[i64],
    new_keys: &[u32],
    together: bool,
    first: &mut [u16],
    next: &mut [u16],
    positions: &mut [u32],
    fill: Option<i64>,
    code: u8,
) -> Result<(), Refusal>
    requires { Grouped (batch keys.now offsets.now ends.now values.now) new_keys.now together
        × LinkLent new_keys.now first.old next.old positions.old }
    ensures { shown_asked result ≡
        filled_groups (operation code) fill (renamed (batch keys.now offsets.now ends.now values.now) new_keys.now) (once new_keys.now) }
{
    match fill {
        Some(_) => Ok(()),
        None => ask_all_groups(
            keys, offsets, ends, values, new_keys, together, first, next, positions, code,
        ),
    }
}

// How many runs the members of a group have.
fn group_runs(
    keys: &[u32],
    offsets: &[usize],
    ends: &[i64],
    values: &[i64],
    new_keys: &[u32],
    together: bool,
    group: Group,
    next: &[u16],
    positions: &[u32],
) -> usize
    requires { Grouped (batch keys.now offsets.now ends.now values.now) new_keys.now together
        × (group.first.at < length new_keys.now) × (doubled new_keys.now group.first.at ≡ false)
        × Chained new_keys.now next.now positions.now group }
    ensures { result ≡ member_runs (renamed (batch keys.now offsets.now ends.now values.now) new_keys.now) (get_or new_keys.now group.first.at 0) }
{
    let links = group.links;
    let first = group.first.at;
    let mut runs = part_at(offsets, ends, first).len();
    let mut member = next_member(new_keys, together, links, next, positions, group.first);
    while member.at < new_keys.len() {
        let at = member.at;
        runs += part_at(offsets, ends, at).len();
        member = next_member(new_keys, together, links, next, positions, member);
    }
    runs
}

// One more member, combined with the runs at the front of the scratch buffers. It goes through the other two buffers.
fn fold_member(
    ends: &[i64],
    values: &[i64],
    count: usize,
    fill: i64,
    code: u8,
    out_ends: &mut [i64],
    out_values: &mut [i64],
    scratch_ends: &mut [i64],
    scratch_values: &mut [i64],
) -> usize
    requires { Foldable
        (sequence ends.now values.now) count out_ends.old out_values.old scratch_ends.old scratch_values.old }
    ensures { FoldedMember
        (combined (operation code)
        (sides (sequence (take count scratch_ends.old) (take count scratch_values.old)) (sequence ends.now values.now) (Some fill)
        (Some fill))) out_ends.old out_ends.new out_values.old
        out_values.new scratch_ends.old scratch_ends.new scratch_values.old scratch_values.new result }
{
    let runs = ops::inner::zip_with(
        &scratch_ends[..count],
        &scratch_values[..count],
        ends,
        values,
        fill,
        fill,
        code,
        out_ends,
        out_values,
    );
    copy(&out_ends[..runs], scratch_ends);
    copy(&out_values[..runs], scratch_values);
    runs
}

// The members of a group combined one after another, at the front of the scratch buffers.
fn fold_group(
    keys: &[u32],
    offsets: &[usize],
    ends: &[i64],
    values: &[i64],
    new_keys: &[u32],
    together: bool,
    group: Group,
    next: &[u16],
    positions: &[u32],
    fill: i64,
    code: u8,
    out_ends: &mut [i64],
    out_values: &mut [i64],
    scratch_ends: &mut [i64],
    scratch_values: &mut [i64],
) -> usize
    requires { Grouped (batch keys.now offsets.now ends.now values.now) new_keys.now together
        × FoldRoom (batch keys.now offsets.now ends.now values.now)
        new_keys.now group.first.at out_ends.old out_values.old scratch_ends.old scratch_values.old
        × Chained new_keys.now next.now positions.now group }
    ensures { Folded
        (collapse_runs (operation code) (Some fill)
        (members (renamed (batch keys.now offsets.now ends.now values.now) new_keys.now) (get_or new_keys.now group.first.at 0)))
        (length ends.now)
        (member_runs (renamed (batch keys.now offsets.now ends.now values.now) new_keys.now) (get_or new_keys.now group.first.at 0)) out_ends.old
        out_ends.new out_values.old
        out_values.new scratch_ends.old scratch_ends.new scratch_values.old scratch_values.new result }
{
    let links = group.links;
    let first = group.first.at;
    let mut member = next_member(new_keys, together, links, next, positions, group.first);
    let mut count = merge::inner::merged(
        part_at(offsets, ends, first),
        part_at(offsets, values, first),
        scratch_ends,
        scratch_values,
    );
    while member.at < new_keys.len() {
        let at = member.at;
        count = fold_member(
            part_at(offsets, ends, at),
            part_at(offsets, values, at),
            count,
            fill,
            code,
            out_ends,
            out_values,
            scratch_ends,
            scratch_values,
        );
        member = next_member(new_keys, together, links, next, positions, member);
    }
    count
}

// The first entries of a buffer, copied after the first n of a scratch buffer.
fn put_aside(entries: &[i64], runs: usize, scratch: &mut [i64], n: usize)
    requires { (runs ≤ length entries.now) × (n + runs ≤ length scratch.old) }
    ensures { scratch.new ≡ take n scratch.old ++ over (take runs entries.now) (drop n scratch.old) }
{
    copy(&entries[..runs], &mut scratch[n..]);
}

// The entries that were put aside, copied back, and over them the first of the scratch buffer.
fn put_back(scratch: &[i64], n: usize, runs: usize, count: usize, out: &mut [i64])
    requires { (n + runs ≤ length scratch.now) × (runs ≤ length out.old) × (count ≤ runs) }
    ensures { out.new ≡ over (take count scratch.now) (over (take runs (drop n scratch.now)) out.old) }
{
    copy(&scratch[n..n + runs], out);
    copy(&scratch[..count], out);
}

// A group. What the two buffers hold where its runs are folded is put aside, and then back: a result on the way may be longer than the last.
fn collapse_group(
    keys: &[u32],
    offsets: &[usize],
    ends: &[i64],
    values: &[i64],
    new_keys: &[u32],
    together: bool,
    group: Group,
    next: &[u16],
    positions: &[u32],
    fill: i64,
    code: u8,
    out_ends: &mut [i64],
    out_values: &mut [i64],
    scratch_ends: &mut [i64],
    scratch_values: &mut [i64],
) -> usize
    requires { Grouped (batch keys.now offsets.now ends.now values.now) new_keys.now together
        × FoldRoom (batch keys.now offsets.now ends.now values.now)
        new_keys.now group.first.at out_ends.old out_values.old scratch_ends.old scratch_values.old
        × Chained new_keys.now next.now positions.now group }
    ensures { FilledGroup
        (collapse_runs (operation code) (Some fill)
        (members (renamed (batch keys.now offsets.now ends.now values.now) new_keys.now) (get_or new_keys.now group.first.at 0)))
        (2 * length ends.now) out_ends.old out_ends.new out_values.old
        out_values.new scratch_ends.old scratch_ends.new scratch_values.old scratch_values.new result }
{
    let first = group.first.at;
    let second = next_member(
        new_keys,
        together,
        group.links,
        next,
        positions,
        group.first,
    );
    if second.at == new_keys.len() {
        return merge::inner::merged(
            part_at(offsets, ends, first),
            part_at(offsets, values, first),
            out_ends,
            out_values,
        );
    }
    let n = ends.len();
    let runs = group_runs(
        keys, offsets, ends, values, new_keys, together, group, next, positions,
    );
    put_aside(out_ends, runs, scratch_ends, n);
    put_aside(out_values, runs, scratch_values, n);
    let count = fold_group(
        keys,
        offsets,
        ends,
        values,
        new_keys,
        together,
        group,
        next,
        positions,
        fill,
        code,
        out_ends,
        out_values,
        scratch_ends,
        scratch_values,
    );
    put_back(scratch_ends, n, runs, count, out_ends);
    put_back(scratch_values, n, runs, count, out_values);
    count
}

// Each group, after those before it.
pub fn collapse(
    keys: &[u32],
    offsets: &[usize],
    ends: &[i64],
    values: &[i64],
    new_keys: &[u32],
    together: bool,
    first: &mut [u16],
    next: &mut [u16],
    positions: &mut [u32],
    fill: i64,
    code: u8,
    out_keys: &mut [u32],
    out_offsets: &mut [usize],
    out_ends: &mut [i64],
    out_values: &mut [i64],
    scratch_ends: &mut [i64],
    scratch_values: &mut [i64],
) -> RleBatch
    requires { Grouped (batch keys.now offsets.now ends.now values.now) new_keys.now together
        × CollapseRoom (batch keys.now offsets.now ends.now values.now)
        out_keys.old out_offsets.old out_ends.old out_values.old scratch_ends.old scratch_values.old
        × LinkLent new_keys.now first.old next.old positions.old }
    ensures { FilledGroups
        (map (collapse_key (operation code) (Some fill) (renamed (batch keys.now offsets.now ends.now values.now) new_keys.now))
        (once new_keys.now)) (2 * length ends.now) out_keys.old out_keys.new out_offsets.old
        out_offsets.new out_ends.old out_ends.new out_values.old
        out_values.new scratch_ends.old scratch_ends.new scratch_values.old scratch_values.new result }
{
    out_offsets[0] = 0;
    let mut used: usize = 0;
    let mut n: usize = 0;
    let mut group = next_group(
        new_keys,
        together,
        links::unlinked(0, 0),
        0,
        &mut *first,
        &mut *next,
        &mut *positions,
    );
    while group.first.at < new_keys.len() {
        let at = group.first.at;
        let key = new_keys[at];
        out_keys[n] = key;
        let count = collapse_group(
            keys,
            offsets,
            ends,
            values,
            new_keys,
            together,
            group,
            &*next,
            &*positions,
            fill,
            code,
            &mut out_ends[used..],
            &mut out_values[used..],
            scratch_ends,
            scratch_values,
        );
        used += count;
        n += 1;
        out_offsets[n] = used;
        group = next_group(
            new_keys,
            together,
            group.links,
            at + 1,
            &mut *first,
            &mut *next,
            &mut *positions,
        );
    }
    RleBatch {
        keys: n,
        runs: used,
    }
}
