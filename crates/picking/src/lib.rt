// A place and a number for a message that is to be sent. Nothing changes: the datagram is written into the
// place next, and only `posting` lets it wait there. Nothing is asked of a caller.
#![tactic(auto)]

ghost use Rattle.picking.specs.Answers.{AfterFree, AfterPick};

use delivery::WORDS;
use limits::NUMBER_MAX;

// Why the next message to a peer can't be sent.
#[derive(Clone, Copy, Debug, PartialEq, Eq)]
pub enum Refused {
    NoNumber,
    NoPlace,
}

// Which place is free? They are looked through from the front.
pub fn free(places: &[u64]) -> Option<usize>
    ensures { AfterFree places.now result }
{
    for p in 0..places.len() / WORDS {
        if places[p * WORDS] == 0 {
            return Some(p);
        }
    }
    None
}

// Which place is free? That of the hint, which may be any number, is looked at first.
fn free_near(places: &[u64], hint: usize) -> Option<usize>
    ensures { AfterFree places.now result }
{
    if hint < places.len() / WORDS && places[hint * WORDS] == 0 {
        return Some(hint);
    }
    free(places)
}

// The place for the next message to the peer, and its number. Numbers run out before places do. The place of the
// hint is taken if it is free.
pub fn pick(
    counts: &[u64],
    places: &[u64],
    peer: usize,
    hint: usize,
) -> Result<(usize, u64), Refused>
    ensures { AfterPick counts.now places.now peer result }
{
    let last = delivery::counts_of(counts, peer).last;
    if last == NUMBER_MAX {
        return Err(Refused::NoNumber);
    }
    let p = free_near(places, hint).ok_or(Refused::NoPlace)?;
    Ok((p, last + 1))
}
