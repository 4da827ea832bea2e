// The message in the room is processed, by a host whose numbers stand in lent words.
// C lends plain slices, so they stand side by side here and are no parts yet.
#![tactic(auto)]

ghost use Rattle.hosts.specs.Memory.{memory};
ghost use Rattle.exporting_process.specs.Answers.{Processing, KeptStep};

use hosts::Done;
use lent::{Index, Map, Post, Strings};
use numbers::{PLACE, WORDS};

// Answers a number from 20 to 27, or 2. Word 11 is a hint before, a place that may be free, and may be any number;
// after 22, 23 and 27 it is the place of the datagram to send.
pub fn process(
    lows: &mut [u64],
    owners: &mut [u64],
    keys: &mut [u64],
    slots: &mut [u64],
    lens: &mut [u64],
    values: &mut [u8],
    name_lens: &[u64],
    names: &[u8],
    counts: &mut [u64],
    places: &mut [u64],
    mail: &mut [u8],
    room: &[u8],
    numbers: &mut [u64],
) -> u64
    ensures { Processing (memory lows.old owners.old keys.old slots.old lens.old values.old name_lens.now names.now counts.old places.old mail.old) room.now numbers.old result
        (memory lows.new owners.new keys.new slots.new lens.new values.new name_lens.now names.now counts.new places.new mail.new) numbers.new }
{
    if numbers.len() < WORDS {
        return codes::UNFIT;
    }
    let k = numbers::load(numbers);
    let hint = numbers[PLACE] as usize;
    let addresses = Strings {
        lens: name_lens,
        bytes: names,
    };
    let done = processing::process(
        &mut Map { lows, owners },
        &mut Index { keys, slots },
        &mut Strings {
            lens,
            bytes: values,
        },
        addresses,
        &mut Post { counts, places },
        mail,
        room,
        k,
        hint,
    );
    kept(numbers, done)
}

// Writes down the numbers after a step. Answers what became of it.
fn kept(numbers: &mut [u64], done: Done) -> u64
    ensures { KeptStep done numbers.old numbers.new result }
{
    numbers::store(numbers, done.state, codes::processed_place(done.outcome));
    codes::processed(done.outcome)
}
