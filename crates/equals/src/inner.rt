// A worker that assumes what the call has asked.
ghost use Rattle.std.specs.Prelude.{◌≡◌};
ghost use Rattle.column.specs.Runs.{sequence, runs_of, dense};
ghost use Rattle.equals.specs.Calls.{same};
ghost use Rattle.equals.specs.Workers.{Comparable};

use column::sequence;
use plan::inner::Segments;

// Columns of one length are compared at every segment, up to the first that shows two values.
pub fn equals(a_ends: &[i64], a_values: &[i64], b_ends: &[i64], b_values: &[i64]) -> bool
    requires { Comparable (sequence a_ends.now a_values.now) (sequence b_ends.now b_values.now) }
    ensures { result ≡ same (dense (runs_of a_ends.now a_values.now)) (dense (runs_of b_ends.now b_values.now)) }
{
    if sequence::length(a_ends) != sequence::length(b_ends) {
        return false;
    }
    let mut here = Segments::start(a_ends, b_ends);
    while here.more() {
        let x = sequence::entry_or(a_values, here.a.index, 0);
        let y = sequence::entry_or(b_values, here.b.index, 0);
        let segment = here.next(a_ends, b_ends);
        if x != y {
            return false;
        }
        here = segment.next;
    }
    true
}
