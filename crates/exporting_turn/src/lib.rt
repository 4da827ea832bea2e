// A turn of a host whose numbers stand in lent words: the three kinds of step in rotation.
// C lends plain slices, so they stand side by side here and are no parts yet. It says by `arrived` whether anything
// has come in, so that is no Option either.
#![tactic(auto)]

ghost use Rattle.hosts.specs.Memory.{memory};
ghost use Rattle.exporting_turn.specs.Answers.{Turning, KeptTurn};

use numbers::{PLACE, WORDS};
use rounds::Ended;

// Answers as receiving and processing do, or 30, 31 or 2. Word 11 is a hint before, as for processing; after 30 it
// is how many places stand in `out`.
pub fn turn(
    lows: &mut [u64],
    owners: &mut [u64],
    keys: &mut [u64],
    slots: &mut [u64],
    lens: &mut [u64],
    values: &mut [u8],
    name_lens: &mut [u64],
    names: &mut [u8],
    counts: &mut [u64],
    places: &mut [u64],
    mail: &mut [u8],
    room: &mut [u8],
    numbers: &mut [u64],
    arrived: bool,
    from: &[u8],
    datagram: &[u8],
    ack: &mut [u8],
    out: &mut [u64],
) -> u64
    ensures { Turning (memory lows.old owners.old keys.old slots.old lens.old values.old name_lens.old names.old counts.old places.old mail.old)
        room.old numbers.old arrived from.now datagram.now ack.old out.old result
        (memory lows.new owners.new keys.new slots.new lens.new values.new name_lens.new names.new counts.new places.new mail.new) room.new numbers.new ack.new out.new }
{
    if numbers.len() < WORDS {
        return codes::UNFIT;
    }
    let k = numbers::load(numbers);
    let hint = numbers[PLACE] as usize;
    let ended = turning::turn(
        lows, owners, keys, slots, lens, values, name_lens, names, counts, places, mail, room, ack,
        out, k, hint, arrived, from, datagram,
    );
    kept(numbers, ended)
}

// Writes down the numbers after a turn, unless it was refused. Answers what became of it.
fn kept(numbers: &mut [u64], ended: Ended) -> u64
    ensures { KeptTurn ended numbers.old numbers.new result }
{
    let told = codes::turned(ended.outcome);
    if told == codes::UNFIT {
        return told;
    }
    let place = codes::turned_place(ended.outcome, ended.place);
    numbers::store(numbers, ended.state, place);
    told
}
