// Nothing received, nothing sent: the memory of delivery made ready, once, before anything else is done with
// it. Nothing is asked of a caller.
#![tactic(auto)]

ghost use Rattle.opening.specs.Answers.{AfterStart};

use delivery::WORDS;

// Nothing received, nothing sent. Answers whether what is lent can serve for datagrams of that size.
pub fn start(counts: &mut [u64], places: &mut [u64], mail: &[u8], size: usize) -> bool
    ensures { AfterStart counts.old places.old mail.now size result counts.new places.new }
{
    if size == 0 {
        return false;
    }
    if mail.len() / size < places.len() / WORDS {
        return false;
    }
    counts.fill(0);
    places.fill(0);
    true
}
