// An Ack: what was sent to a peer has arrived, up to a number. Exactly those messages stop waiting.
#![tactic(auto)]

ghost use Rattle.confirming.specs.Answers.{AfterConfirm, Freed, Released};

use delivery::WORDS;

// The messages up to that number have arrived at the peer. A number above the last one sent counts too:
// nothing waits then, and the next message gets the number after it.
pub fn confirm(counts: &mut [u64], places: &mut [u64], peer: usize, number: u64)
    ensures { AfterConfirm counts.old places.old peer number counts.new places.new }
{
    if counts.len() / WORDS <= peer {
        return;
    }
    let before = counts[peer * WORDS + 1];
    counts[peer * WORDS + 1] = number;
    counts[peer * WORDS + 2] = counts[peer * WORDS + 2].max(number);
    release(places, peer as u64 + 1, before, number);
}

// Frees the places with that mark and a number above `before` up to x. Mostly there is one at most, and then
// the places behind it need not be looked at.
fn release(places: &mut [u64], mark: u64, before: u64, x: u64)
    ensures { Released places.old mark before x places.new }
{
    if before < x && x - before == 1 {
        free(places, mark, x);
    } else {
        clearing::clear(places, mark, x);
    }
}

// Frees the first place with that mark and the number x.
fn free(places: &mut [u64], mark: u64, x: u64)
    ensures { Freed places.old mark x places.new }
{
    for at in 0..places.len() / WORDS {
        if places[at * WORDS] == mark && places[at * WORDS + 1] == x {
            places[at * WORDS] = 0;
            return;
        }
    }
}
