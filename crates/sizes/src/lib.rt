// How many bytes a list of entries takes in a message, told before it is written.
#![tactic(auto)]

ghost use Rattle.sizes.specs.Sizes.{AfterSize};

use format::WIDTH;
use limits::BYTES_MAX;

// The bytes that a list of m entries takes, from the lengths of its values alone, or none if they are more
// than a message has. It stops at the first entry with which they are too many.
pub fn size_of(lens: &[u64], m: usize) -> Option<usize>
    ensures { AfterSize lens.now m result }
{
    let mut total = WIDTH;
    for &len in lens.get(..m)? {
        let len = len as usize;
        if BYTES_MAX - total < WIDTH + WIDTH || BYTES_MAX - total - (WIDTH + WIDTH) < len {
            return None;
        }
        total += WIDTH + WIDTH + len;
    }
    Some(total)
}
