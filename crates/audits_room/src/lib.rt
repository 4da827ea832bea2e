// Is the room free, or does it hold a message? For audits.
#![tactic(auto)]

ghost use Rattle.std.specs.Prelude.{List, ℕ};
ghost use Rattle.hosts.specs.Memory.{memory};
ghost use Rattle.audits_room.specs.Answers.{Valid};
ghost use Rattle.audits_room.specs.Inner.{Held};

use hosts::State;
use lent::{Index, Map, Strings};
use message::Parsed;

// Is the room free, or the datagram in it a message for this host from a peer, and what it needs there?
pub fn valid(
    map: Map<&[u64]>,
    index: Index<&[u64]>,
    names: Strings<&[u64], &[u8]>,
    places: &[u64],
    room: &[u8],
    k: State,
) -> bool
    ensures { (lens values counts mail : List ℕ) → Valid
        (memory map.entry.lows.now map.entry.owners.now index.entry.keys.now index.entry.slots.now lens values names.entry.lens.now names.entry.bytes.now counts places.now mail)
        k room.now result }
{
    if k.len == 0 {
        return true;
    }
    if room.len() < k.len || k.peers <= k.from {
        return false;
    }
    held(map, index, names, places, k, &room[..k.len])
}

// Is the datagram s a message for this host, and what it needs there, if it came from peer `k.from`?
fn held(
    map: Map<&[u64]>,
    index: Index<&[u64]>,
    names: Strings<&[u64], &[u8]>,
    places: &[u64],
    k: State,
    s: &[u8],
) -> bool
    ensures { Held map.entry.lows.now map.entry.owners.now index.entry.keys.now index.entry.slots.now names.entry.lens.now names.entry.bytes.now places.now k s.now result }
{
    let Some((a, b)) = peers::name(names.lens, names.bytes, k.width, k.from) else {
        return false;
    };
    match parsing::parse(s) {
        Some(Parsed::Message(_, to, body)) => {
            if !hearing::own(names, k, &s[to.at..to.at + to.len]) {
                return false;
            }
            rooms::roomy(map, index, names, places, k, &names.bytes[a..b], s, body).is_some()
        }
        Some(Parsed::Ack(_)) => false,
        None => false,
    }
}
