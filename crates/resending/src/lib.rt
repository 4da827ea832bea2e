// All waiting messages, in the order in which they are sent again: to one peer after the other, to each in
// rising order of numbers, since the receiver takes only the next. No datagram is copied: what is written
// down is the number of its place.
#![tactic(auto)]

ghost use Rattle.std.specs.Prelude.{◌≡◌, true, false, suc, ◌≤◌, length};
ghost use Rattle.resending.specs.Answers.{AfterFind, AfterPeer, AfterAll};

use delivery::WORDS;
use limits::NoRoom;

// Where does the peer's message with that number wait? The places are looked through from the front.
pub fn find(places: &[u64], peer: usize, number: u64) -> Option<usize>
    ensures { AfterFind places.now peer number result }
{
    for p in 0..places.len() / WORDS {
        if places[p * WORDS + 1] == number && is_for(places[p * WORDS], peer) {
            return Some(p);
        }
    }
    None
}

// Is a place with that mark the peer's? The mark is one more than the peer's number, which may be the
// largest there is, so one is taken from the mark.
fn is_for(mark: u64, peer: usize) -> bool
    ensures { (result ≡ true → mark ≡ suc peer) × (result ≡ false → mark ≡ suc peer → ⊥) }
{
    mark != 0 && mark - 1 == peer as u64
}

// Writes down the places of all messages that wait for the first n peers, and answers how many. At most as many are written down
// as there is room for, whatever the counts say, so the work is bounded by what is lent.
pub fn all(counts: &[u64], places: &[u64], n: usize, out: &mut [u64]) -> Result<usize, NoRoom>
    ensures { AfterAll counts.now places.now n out.old result out.new }
{
    if counts.len() / WORDS < n {
        return Err(NoRoom);
    }
    let mut at: usize = 0;
    for i in 0..n {
        at = of_peer(counts, places, i, out, at)?;
    }
    Ok(at)
}

// Writes down the places of the messages that wait for one peer, behind the first `from` that are written
// down already. Where memory keeps what is known of peers no message is missing; elsewhere it stops at the
// first that is.
fn of_peer(
    counts: &[u64],
    places: &[u64],
    peer: usize,
    out: &mut [u64],
    from: usize,
) -> Result<usize, NoRoom>
    requires { from ≤ length out.old }
    ensures { AfterPeer counts.now places.now peer out.old from result out.new }
{
    let known = delivery::counts_of(counts, peer);
    let mut at = from;
    for number in known.acknowledged..known.last {
        if out.len() <= at {
            return Err(NoRoom);
        }
        let Some(p) = find(places, peer, number + 1) else {
            return Err(NoRoom);
        };
        out[at] = p as u64;
        at += 1;
    }
    Ok(at)
}
