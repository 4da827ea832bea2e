// An Ack arrives (document 01, section 4): it counts if it comes from one to whom something may have been
// sent and says more than was known. An Ack is never acknowledged.
#![tactic(auto)]

ghost use Rattle.lent.specs.Parts.{PostStays};
ghost use Rattle.acknowledging.specs.Answers.{AfterAck};

use hosts::State;
use lent::{Post, Strings};

// The Ack of a number arrives from an address. Answers whether it counts.
pub fn ack(
    names: Strings<&[u64], &[u8]>,
    post: &mut Post<&mut [u64]>,
    k: State,
    from: &[u8],
    number: u64,
) -> bool
    ensures stays { PostStays post.old post.new }
    ensures is { AfterAck names.entry.lens.now names.entry.bytes.now post.old.counts.now post.old.places.now k from.now number result
        post.new.counts.now post.new.places.now }
{
    let Some(i) = finding::find(names.lens, names.bytes, k.width, k.peers, from) else {
        return false;
    };
    let seen = post.view();
    if number <= delivery::counts_of(seen.counts, i).acknowledged {
        return false;
    }
    confirming::confirm(post.counts, post.places, i, number);
    true
}
