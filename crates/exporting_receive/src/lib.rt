// A datagram arrives at a host whose numbers stand in lent words.
// C lends plain slices, so they stand side by side here and are no parts yet.
#![tactic(auto)]

ghost use Rattle.std.specs.Prelude.{List, ℕ};
ghost use Rattle.hosts.specs.Memory.{memory};
ghost use Rattle.exporting_receive.specs.Answers.{Receiving, KeptArrival};

use format::WIDTH;
use incoming::Arrival;
use numbers::WORDS;

// Answers a number from 10 to 18, or 2. After 13 and 15 the Ack to send stands at the front of `ack`. Word 11 is
// a hint for processing. Where an Ack does not fit, the numbers are not written either.
pub fn receive(
    lows: &[u64],
    owners: &[u64],
    keys: &[u64],
    slots: &[u64],
    name_lens: &mut [u64],
    names: &mut [u8],
    counts: &mut [u64],
    places: &mut [u64],
    room: &mut [u8],
    numbers: &mut [u64],
    from: &[u8],
    datagram: &[u8],
    ack: &mut [u8],
) -> u64
    ensures { (lens values mail : List ℕ) → Receiving (memory lows.now owners.now keys.now slots.now lens values name_lens.old names.old counts.old places.old mail)
        room.old numbers.old from.now datagram.now ack.old result
        (memory lows.now owners.now keys.now slots.now lens values name_lens.new names.new counts.new places.new mail) room.new numbers.new ack.new }
{
    if numbers.len() < WORDS || ack.len() < 1 + WIDTH {
        return codes::UNFIT;
    }
    let k = numbers::load(numbers);
    let arrival = receiving::receive(
        lows, owners, keys, slots, name_lens, names, counts, places, room, ack, k, from, datagram,
    );
    kept(numbers, arrival)
}

// Writes down the numbers after a datagram. Answers what became of it.
fn kept(numbers: &mut [u64], arrival: Arrival) -> u64
    ensures { KeptArrival arrival numbers.old numbers.new result }
{
    numbers::store(numbers, arrival.state, arrival.place as u64);
    codes::received(arrival.outcome)
}
