// Sending again (document 01, section 4): all waiting messages are handed out once, to each peer in rising
// order of numbers. What is answered are the numbers of their places; no datagram is copied.
#![tactic(auto)]

ghost use Rattle.repeating.specs.Answers.{AfterRepeat};

use delivery::WORDS;
use hosts::State;
use limits::NoRoom;

// Writes down the places of all waiting messages, and answers how many; or fewer were lent for them than there
// are places.
pub fn retransmit(
    counts: &[u64],
    places: &[u64],
    k: State,
    out: &mut [u64],
) -> Result<usize, NoRoom>
    ensures { AfterRepeat counts.now places.now k out.old result out.new }
{
    if out.len() < places.len() / WORDS {
        return Err(NoRoom);
    }
    // So many have room. Where memory keeps no host they may not, and then none is handed out.
    Ok(resending::all(counts, places, k.peers, out).unwrap_or(0))
}
