// The message in the room is processed.
ghost use Rattle.hosts.specs.Memory.{memory};
ghost use Rattle.exporting_process.specs.Answers.{Processing};

// Answers a number from 20 to 27, or 2. Word 11 is a hint before, a place that may be free, and may be any number;
// after 22, 23 and 27 it is the place of the datagram to send.
#[unsafe(no_mangle)]
pub extern "C" fn tagshards_process(
    lows: &mut [u64],
    owners: &mut [u64],
    keys: &mut [u64],
    slots: &mut [u64],
    lens: &mut [u64],
    values: &mut [u8],
    name_lens: &[u64],
    names: &[u8],
    counts: &mut [u64],
    places: &mut [u64],
    mail: &mut [u8],
    room: &[u8],
    numbers: &mut [u64],
) -> u64
    ensures { Processing (memory lows.old owners.old keys.old slots.old lens.old values.old name_lens.now names.now counts.old places.old mail.old) room.now numbers.old result
        (memory lows.new owners.new keys.new slots.new lens.new values.new name_lens.now names.now counts.new places.new mail.new) numbers.new }
{
    exporting_process::process(
        lows, owners, keys, slots, lens, values, name_lens, names, counts, places, mail, room,
        numbers,
    )
}
