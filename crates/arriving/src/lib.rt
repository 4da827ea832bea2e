// A turn for receiving (document 01, section 5): the datagram that has arrived, if one has, is received.
#![tactic(auto)]

ghost use Rattle.std.specs.Prelude.{List, ℕ};
ghost use Rattle.hosts.specs.Memory.{memory};
ghost use Rattle.arriving.specs.Answers.{AfterArrive};

use format::WIDTH;
use hosts::State;
use rounds::{Ended, Turned};

// A turn for receiving. If nothing has arrived, the sender and the datagram are not looked at: `arrived` stands
// beside them, and not in an Option, since C hands the three in like that.
pub fn arrive(
    lows: &[u64],
    owners: &[u64],
    keys: &[u64],
    slots: &[u64],
    name_lens: &mut [u64],
    names: &mut [u8],
    counts: &mut [u64],
    places: &mut [u64],
    room: &mut [u8],
    ack: &mut [u8],
    k: State,
    arrived: bool,
    from: &[u8],
    s: &[u8],
) -> Ended
    ensures { (lens values mail : List ℕ) → AfterArrive (memory lows.now owners.now keys.now slots.now lens values name_lens.old names.old counts.old places.old mail) k room.old arrived from.now s.now ack.old result
        (memory lows.now owners.now keys.now slots.now lens values name_lens.new names.new counts.new places.new mail) room.new ack.new }
{
    if ack.len() < 1 + WIDTH {
        return rounds::unfit(k);
    }
    if !arrived {
        return Ended {
            state: rounds::over(k),
            outcome: Turned::Waits,
            place: 0,
        };
    }
    let arrival = receiving::receive(
        lows, owners, keys, slots, name_lens, names, counts, places, room, ack, k, from, s,
    );
    Ended {
        state: rounds::over(arrival.state),
        outcome: Turned::Came(arrival.outcome),
        place: arrival.place,
    }
}
