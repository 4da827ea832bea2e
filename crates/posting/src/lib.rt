// A message waits in the place that was picked for it (`picking`) and that its datagram was written into.
// Until it is posted nothing has changed, since what stands in a free place counts for nothing. Nothing is
// asked of a caller.
#![tactic(auto)]

ghost use Rattle.posting.specs.Answers.{AfterPost};

use delivery::WORDS;

// The datagram of that length, which was written into the place, is the peer's next message.
pub fn post(counts: &mut [u64], places: &mut [u64], peer: usize, p: usize, number: u64, len: usize)
    ensures { AfterPost counts.old places.old peer p number len counts.new places.new }
{
    if counts.len() / WORDS <= peer || places.len() / WORDS <= p {
        return;
    }
    counts[peer * WORDS + 2] = number;
    places[p * WORDS] = peer as u64 + 1;
    places[p * WORDS + 1] = number;
    places[p * WORDS + 2] = len as u64;
}
