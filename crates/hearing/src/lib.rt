// What is known of a message's two addresses: the number of the last message that was taken from the sender, and
// whether the destination is the host's own (document 01, section 4).
#![tactic(auto)]

ghost use Rattle.hearing.specs.Answers.{Last, Own};

use hosts::State;
use lent::Strings;

// The number of the last message that was taken from an address: 0 if none was. The peer is a hint, where the
// address was found; of an address that was not it says nothing.
#[derive(Clone, Copy)]
pub struct Heard {
    pub number: u64,
    pub peer: usize,
}

// What was the last message that was taken from an address?
pub fn last(names: Strings<&[u64], &[u8]>, counts: &[u64], k: State, from: &[u8]) -> Heard
    ensures { Last names.entry.lens.now names.entry.bytes.now counts.now k from.now result.number }
{
    match finding::find(names.lens, names.bytes, k.width, k.peers, from) {
        Some(i) => Heard {
            number: delivery::counts_of(counts, i).received,
            peer: i,
        },
        None => Heard {
            number: 0,
            peer: k.peers,
        },
    }
}

// Is the address the host's own?
pub fn own(names: Strings<&[u64], &[u8]>, k: State, address: &[u8]) -> bool
    ensures { Own names.entry.lens.now names.entry.bytes.now k address.now result }
{
    let Some((a, b)) = peers::name(names.lens, names.bytes, k.width, k.me) else {
        return false;
    };
    memory::same(&names.bytes[a..b], address)
}
