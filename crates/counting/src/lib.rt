// What was taken from a peer is counted, and a new peer joins: the two changes to the peers' words that a
// message which is taken makes. Nothing is asked of a caller.
#![tactic(auto)]

ghost use Rattle.counting.specs.Answers.{AfterTake, AfterJoin};

use delivery::WORDS;

// The message with that number was taken from the peer.
pub fn take(counts: &mut [u64], peer: usize, number: u64)
    ensures { AfterTake counts.old peer number counts.new }
{
    if peer < counts.len() / WORDS {
        counts[peer * WORDS] = number;
    }
}

// After n peers one more, of whom nothing is known. Answers whether there are words for it.
pub fn join(counts: &mut [u64], n: usize) -> bool
    ensures { AfterJoin counts.old n result counts.new }
{
    if counts.len() / WORDS <= n {
        return false;
    }
    counts[n * WORDS] = 0;
    counts[n * WORDS + 1] = 0;
    counts[n * WORDS + 2] = 0;
    true
}
