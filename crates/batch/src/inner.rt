// Leaves of the workers.
pub mod lookup;

ghost use Rattle.std.specs.Prelude.{◌≤◌, [], ◌≡◌, length, get_or};
ghost use Rattle.column.specs.Lists.{parts};
ghost use Rattle.column.specs.Runs.{over};

use column::sequence;

// The entries of the key at a position; none where there is no such position.
pub fn part_at<'o, 'e>(offsets: &'o [usize], entries: &'e [i64], position: usize) -> &'e [i64]
    ensures { result.now ≡ get_or (parts offsets.now entries.now) position [] }
{
    if sequence::count(offsets) <= position {
        return &entries[..0];
    }
    sequence::part(entries, offsets[position], offsets[position + 1])
}

// The entries, copied to the front of a buffer. Not by `copy_from_slice`, for which the archive would need `memmove` from outside.
pub fn copy(entries: &[i64], out: &mut [i64])
    requires { length entries.now ≤ length out.old }
    ensures { out.new ≡ over entries.now out.old }
{
    for i in 0..entries.len() {
        let entry = entries[i];
        out[i] = entry;
    }
}
