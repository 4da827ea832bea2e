// The count of turns, and the turn for sending again (document 01, section 5). Retransmit acts on every so many of
// its turns only. The count begins anew when it has acted.
#![tactic(auto)]

ghost use Rattle.std.specs.Prelude.{◌≡◌};
ghost use Rattle.rounds.specs.Answers.{AfterAgain, over_of, refusal};

use hosts::{Processed, State};
use incoming::Received;
use limits::RESEND_EVERY;

// The turns until all begins anew.
const ROUND: u64 = 3 * RESEND_EVERY;

// What became of a turn: of a datagram, of the message in the room, how many datagrams go out again, or that
// there was nothing to do. Unfit: what was lent for an Ack or for places is too short, and nothing was done.
#[derive(Clone, Copy)]
pub enum Turned {
    Came(Received),
    Did(Processed),
    Resent(usize),
    Waits,
    Unfit,
}

// The host's numbers after a turn, what became of it, and a place that was seen to be free, as a hint for the
// turn that processes. It may be any number.
#[derive(Clone, Copy)]
pub struct Ended {
    pub state: State,
    pub outcome: Turned,
    pub place: usize,
}

// A turn for sending again. If too little is lent for the places of all that waits, nothing is done.
pub fn again(counts: &[u64], places: &[u64], out: &mut [u64], k: State) -> Ended
    ensures { AfterAgain counts.now places.now k out.old result out.new }
{
    if k.turns != ROUND - 1 {
        return Ended {
            state: over(k),
            outcome: Turned::Waits,
            place: 0,
        };
    }
    match repeating::retransmit(counts, places, k, out) {
        Ok(n) => Ended {
            state: over(k),
            outcome: Turned::Resent(n),
            place: 0,
        },
        Err(_) => unfit(k),
    }
}

// What was lent is too short.
pub fn unfit(k: State) -> Ended
    ensures { result ≡ refusal k }
{
    Ended {
        state: k,
        outcome: Turned::Unfit,
        place: 0,
    }
}

// The numbers with the turn over. The count begins anew at the end of a round.
pub fn over(k: State) -> State
    ensures { result ≡ over_of k }
{
    State {
        turns: (k.turns % ROUND + 1) % ROUND,
        ..k
    }
}
