// A datagram arrives (document 01, sections 4 to 6). While the room is taken everything is dropped. An Ack is
// counted, and a message goes on to `incoming`.
#![tactic(auto)]

ghost use Rattle.std.specs.Prelude.{◌≡◌, List, ℕ};
ghost use Rattle.hosts.specs.Memory.{memory};
ghost use Rattle.receiving.specs.Answers.{AfterReceive};
ghost use Rattle.receiving.specs.Inner.{ack_outcome_of};

use format::WIDTH;
use hosts::State;
use incoming::{Arrival, Received};
use lent::{Index, Map, Post, Strings};
use message::Parsed;

// The datagram s arrives from an address. After Taken and Again the Ack stands at the front of `ack`.
pub fn receive<'a>(
    lows: &[u64],
    owners: &[u64],
    keys: &[u64],
    slots: &[u64],
    name_lens: &'a mut [u64],
    names: &'a mut [u8],
    counts: &'a mut [u64],
    places: &'a mut [u64],
    room: &mut [u8],
    ack: &mut [u8],
    k: State,
    from: &[u8],
    s: &[u8],
) -> Arrival
    ensures { (lens values mail : List ℕ) → AfterReceive (memory lows.now owners.now keys.now slots.now lens values name_lens.old names.old counts.old places.old mail)
        k room.old from.now s.now ack.old result
        (memory lows.now owners.now keys.now slots.now lens values name_lens.new names.new counts.new places.new mail) room.new ack.new }
{
    if ack.len() < 1 + WIDTH {
        return incoming::left(k, Received::Unfit);
    }
    if k.len != 0 {
        return incoming::left(k, Received::Full);
    }
    match parsing::parse(s) {
        Some(Parsed::Message(n, to, body)) => {
            let map = Map { lows, owners };
            let index = Index { keys, slots };
            let mut known = Strings {
                lens: name_lens,
                bytes: names,
            };
            incoming::message(
                map, index, &mut known, counts, places, room, ack, k, from, s, n, to, body,
            )
        }
        Some(Parsed::Ack(n)) => {
            let known = Strings {
                lens: &*name_lens,
                bytes: &*names,
            };
            let mut post = Post { counts, places };
            let counted = acknowledging::ack(known, &mut post, k, from, n);
            incoming::left(k, ack_outcome(counted))
        }
        None => incoming::left(k, Received::Invalid),
    }
}

// What became of an Ack, by whether it counts.
fn ack_outcome(counted: bool) -> Received
    ensures { result ≡ ack_outcome_of counted }
{
    if counted {
        Received::Arrived
    } else {
        Received::Stale
    }
}
