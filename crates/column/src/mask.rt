// The bytes of a mask: which is not 0 or 1, and how many are 1.
ghost use Rattle.std.specs.Prelude.{◌+◌, ◌<◌, ◌^◌, cond, ◌≡◌, eqb};
ghost use Rattle.column.specs.Workers.{first_unlisted, mask_ones};

// The lowest index of a byte above 1, or the length.
pub fn first_unlisted(mask: &[u8]) -> usize
    ensures { result ≡ first_unlisted mask.now }
{
    for (i, byte) in mask.iter().enumerate() {
        if 1 < *byte {
            return i;
        }
    }
    mask.len()
}

// One more if the byte is 1.
fn count_if_one(count: usize, byte: u8) -> usize
    requires { count + 1 < 2 ^ 64 }
    ensures { result ≡ cond (eqb byte 1) (count + 1) count }
{
    if byte == 1 { count + 1 } else { count }
}

// How many bytes are 1. The choice has no branch, so that the loop becomes vector instructions.
pub fn mask_ones(mask: &[u8]) -> usize
    ensures { result ≡ mask_ones mask.now }
{
    let mut count: usize = 0;
    for byte in mask {
        count = count_if_one(count, *byte);
    }
    count
}
