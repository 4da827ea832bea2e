// All that waits for a peer up to a number stops waiting: one pass over the places. Apart from `confirming`,
// which needs it only for an Ack of more than the next message. Nothing is asked of a caller.
#![tactic(auto)]

ghost use Rattle.clearing.specs.Answers.{Cleared};

use delivery::WORDS;

// Frees the places with that mark and a number up to x.
pub fn clear(places: &mut [u64], mark: u64, x: u64)
    ensures { Cleared places.old mark x places.new }
{
    for p in 0..places.len() / WORDS {
        if places[p * WORDS] == mark && places[p * WORDS + 1] <= x {
            places[p * WORDS] = 0;
        }
    }
}
