// Delivered once (document 01, section 4), in lent memory and by peers' numbers: what a host has
// received from each peer, what the peer has acknowledged, and which messages wait. specs/Post.antt says
// what is known of peers, specs/Memory.antt how memory keeps it, and specs/Answers.antt what is read of
// it; proofs/Laws.antt has the laws that the crates above go by. Nothing is asked of a caller.
//
// Here memory is only read: what changes it stands in crates of its own, so that each is proved alone.
// `opening` makes it ready, `counting` tells it of a message that was taken and of a new peer, `picking`
// finds a place and a number for a message, `posting` lets it wait there, `confirming` takes an Ack,
// `resending` goes through all that waits.
#![tactic(auto)]

ghost use Rattle.delivery.specs.Answers.{Counted};

// The words of a peer, and those of a place.
pub const WORDS: usize = 3;

// The number of the last message that was taken from a peer, how many it has acknowledged, and the number
// of the last message that was sent to it.
#[derive(Clone, Copy, Debug, Default, PartialEq, Eq)]
pub struct Counts {
    pub received: u64,
    pub acknowledged: u64,
    pub last: u64,
}

// The numbers of a peer.
pub fn counts_of(counts: &[u64], peer: usize) -> Counts
    ensures { Counted counts.now peer result }
{
    if counts.len() / WORDS <= peer {
        return Counts::default();
    }
    Counts {
        received: counts[peer * WORDS],
        acknowledged: counts[peer * WORDS + 1],
        last: counts[peer * WORDS + 2],
    }
}
