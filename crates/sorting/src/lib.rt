// What a message that arrives is to its host (document 01, section 4): one for another host, one that was taken
// before, the next from its sender, or one from the future.
#![tactic(auto)]

ghost use Rattle.sorting.specs.Answers.{AfterSort};

use format::Part;
use hosts::State;
use lent::Strings;

// The peer of the next message is a hint, where its sender was found; of a sender that was not it says nothing.
#[derive(Clone, Copy, Debug, PartialEq, Eq)]
pub enum Kind {
    Elsewhere,
    Again,
    Future,
    Next(usize),
}

// What is the message with that number from an address, whose destination stands in the datagram s?
pub fn sort(
    names: Strings<&[u64], &[u8]>,
    counts: &[u64],
    k: State,
    from: &[u8],
    s: &[u8],
    n: u64,
    to: Part,
) -> Kind
    ensures { AfterSort names.entry.lens.now names.entry.bytes.now counts.now k from.now s.now n to result }
{
    let at = to.at;
    if s.len() < at || s.len() - at < to.len {
        return Kind::Elsewhere;
    }
    let end = at + to.len;
    if !hearing::own(names, k, &s[at..end]) {
        return Kind::Elsewhere;
    }
    let heard = hearing::last(names, counts, k, from);
    let last = heard.number;
    if n <= last {
        return Kind::Again;
    }
    if n - last != 1 {
        return Kind::Future;
    }
    Kind::Next(heard.peer)
}
