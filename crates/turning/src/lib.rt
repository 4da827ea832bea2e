// Turns: receive, process, retransmit, and again from the front (document 01, section 5). Retransmit acts on
// every so many of its turns only (`rounds`).
#![tactic(auto)]

ghost use Rattle.hosts.specs.Memory.{memory};
ghost use Rattle.turning.specs.Answers.{AfterTurn};

use delivery::WORDS;
use format::WIDTH;
use hosts::State;
use lent::{Index, Map, Post, Strings};
use rounds::{Ended, Turned};

// One turn. If it is one for receiving and a datagram has arrived, it is received; on the others it is not
// looked at. The hint may be any number. `arrived` stands beside the sender and the datagram, and not in an
// Option, since C hands the three in like that.
pub fn turn(
    lows: &mut [u64],
    owners: &mut [u64],
    keys: &mut [u64],
    slots: &mut [u64],
    lens: &mut [u64],
    values: &mut [u8],
    name_lens: &mut [u64],
    names: &mut [u8],
    counts: &mut [u64],
    places: &mut [u64],
    mail: &mut [u8],
    room: &mut [u8],
    ack: &mut [u8],
    out: &mut [u64],
    k: State,
    hint: usize,
    arrived: bool,
    from: &[u8],
    s: &[u8],
) -> Ended
    ensures { AfterTurn (memory lows.old owners.old keys.old slots.old lens.old values.old name_lens.old names.old counts.old places.old mail.old)
        k room.old arrived from.now s.now ack.old out.old result
        (memory lows.new owners.new keys.new slots.new lens.new values.new name_lens.new names.new counts.new places.new mail.new) room.new ack.new out.new }
{
    if ack.len() < 1 + WIDTH || out.len() < places.len() / WORDS {
        return rounds::unfit(k);
    }
    // the count tells the kind of the turn; the three take different slices, so no table of closures is plainer
    let kind = k.turns % 3;
    if kind == 0 {
        return arriving::arrive(
            lows, owners, keys, slots, name_lens, names, counts, places, room, ack, k, arrived,
            from, s,
        );
    }
    if kind == 1 {
        let addresses = Strings {
            lens: &*name_lens,
            bytes: &*names,
        };
        let done = processing::process(
            &mut Map { lows, owners },
            &mut Index { keys, slots },
            &mut Strings {
                lens,
                bytes: values,
            },
            addresses,
            &mut Post { counts, places },
            mail,
            room,
            k,
            hint,
        );
        return Ended {
            state: rounds::over(done.state),
            outcome: Turned::Did(done.outcome),
            place: 0,
        };
    }
    rounds::again(counts, places, out, k)
}
