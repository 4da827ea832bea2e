// A message arrives while the room is free (document 01, sections 4 to 6). A new one is taken if there is room for
// all that it may need, and acknowledged; one that was taken before is acknowledged again; one from the future is
// neither taken nor acknowledged. What became of a datagram is named here too, for `receiving` and its callers.
#![tactic(auto)]

ghost use Rattle.std.specs.Prelude.{◌≡◌, List, ℕ, Some};
ghost use Rattle.message.specs.Answers.{AfterParse};
ghost use Rattle.message.specs.declared.Parsed.TheVariants.{Message};
ghost use Rattle.lent.specs.Parts.{StringsStay};
ghost use Rattle.hosts.specs.Memory.{memory};
ghost use Rattle.incoming.specs.Handled.{leaving, Handled, Next};

use format::Part;
use hosts::State;
use lent::{Index, Map, Strings};
use limits::NoRoom;
use message::BodyView;
use sorting::Kind;

// What became of a datagram. Unfit: what was lent for the Ack is too short, and nothing was done.
#[derive(Clone, Copy, Debug, PartialEq, Eq)]
pub enum Received {
    Full,
    Invalid,
    Elsewhere,
    Taken,
    Unreceived,
    Again,
    Future,
    Arrived,
    Stale,
    Unfit,
}

// The host's numbers after a datagram arrived, and what became of it. The place is a hint for processing: the
// free place that was found for what a message that was taken may send; else 0.
#[derive(Clone, Copy)]
pub struct Arrival {
    pub state: State,
    pub outcome: Received,
    pub place: usize,
}

// The numbers stay as they are.
pub fn left(k: State, outcome: Received) -> Arrival
    ensures { result ≡ leaving k outcome }
{
    Arrival {
        state: k,
        outcome,
        place: 0,
    }
}

// The message with that number for that address arrives. One that was taken before is only acknowledged
// again.
pub fn message(
    map: Map<&[u64]>,
    index: Index<&[u64]>,
    names: &mut Strings<&mut [u64], &mut [u8]>,
    counts: &mut [u64],
    places: &[u64],
    room: &mut [u8],
    ack: &mut [u8],
    k: State,
    from: &[u8],
    s: &[u8],
    n: u64,
    to: Part,
    body: BodyView,
) -> Arrival
    ensures stays { StringsStay names.old names.new }
    ensures is { (lens values mail : List ℕ) → Handled (λ h. AfterParse s.now (Some (Message n to body)))
        (memory map.entry.lows.now map.entry.owners.now index.entry.keys.now index.entry.slots.now lens values names.old.lens.now names.old.bytes.now counts.old places.now mail)
        k room.old from.now s.now ack.old result
        (memory map.entry.lows.now map.entry.owners.now index.entry.keys.now index.entry.slots.now lens values names.new.lens.now names.new.bytes.now counts.new places.now mail) room.new ack.new }
{
    match sorting::sort(names.view(), counts, k, from, s, n, to) {
        Kind::Elsewhere => left(k, Received::Elsewhere),
        Kind::Again => {
            // it fits: what is lent for an Ack is looked at by `receiving`
            let _ = composing::ack(n, ack);
            left(k, Received::Again)
        }
        Kind::Future => left(k, Received::Future),
        Kind::Next(peer) => fresh(
            map, index, names, counts, places, room, ack, k, from, s, n, body, peer,
        ),
    }
}

// The next message from its sender, for this host, is taken and acknowledged, if there is room for it. The
// sender is looked for first at the peer of the hint.
fn fresh(
    map: Map<&[u64]>,
    index: Index<&[u64]>,
    names: &mut Strings<&mut [u64], &mut [u8]>,
    counts: &mut [u64],
    places: &[u64],
    room: &mut [u8],
    ack: &mut [u8],
    k: State,
    from: &[u8],
    s: &[u8],
    n: u64,
    body: BodyView,
    hint: usize,
) -> Arrival
    ensures stays { StringsStay names.old names.new }
    ensures is { (lens values mail : List ℕ) → Handled (Next from.now s.now n body)
        (memory map.entry.lows.now map.entry.owners.now index.entry.keys.now index.entry.slots.now lens values names.old.lens.now names.old.bytes.now counts.old places.now mail)
        k room.old from.now s.now ack.old result
        (memory map.entry.lows.now map.entry.owners.now index.entry.keys.now index.entry.slots.now lens values names.new.lens.now names.new.bytes.now counts.new places.now mail) room.new ack.new }
{
    let Some(place) = rooms::roomy(map, index, names.view(), places, k, from, s, body) else {
        return left(k, Received::Unreceived);
    };
    match taking::take(names, counts, room, k, from, n, s, hint) {
        Ok(state) => {
            // it fits: what is lent for an Ack is looked at by `receiving`
            let _ = composing::ack(n, ack);
            Arrival {
                state,
                outcome: Received::Taken,
                place,
            }
        }
        Err(NoRoom) => left(k, Received::Unreceived),
    }
}
