// A turn: the three kinds of step in rotation.
ghost use Rattle.hosts.specs.Memory.{memory};
ghost use Rattle.exporting_turn.specs.Answers.{Turning};

// Answers as receiving and processing do, or 30, 31 or 2. Word 11 is a hint before, as for processing; after 30 it
// is how many places stand in `out`.
#[unsafe(no_mangle)]
pub extern "C" fn tagshards_turn(
    lows: &mut [u64],
    owners: &mut [u64],
    keys: &mut [u64],
    slots: &mut [u64],
    lens: &mut [u64],
    values: &mut [u8],
    name_lens: &mut [u64],
    names: &mut [u8],
    counts: &mut [u64],
    places: &mut [u64],
    mail: &mut [u8],
    room: &mut [u8],
    numbers: &mut [u64],
    arrived: bool,
    from: &[u8],
    datagram: &[u8],
    ack: &mut [u8],
    out: &mut [u64],
) -> u64
    ensures { Turning (memory lows.old owners.old keys.old slots.old lens.old values.old name_lens.old names.old counts.old places.old mail.old)
        room.old numbers.old arrived from.now datagram.now ack.old out.old result
        (memory lows.new owners.new keys.new slots.new lens.new values.new name_lens.new names.new counts.new places.new mail.new) room.new numbers.new ack.new out.new }
{
    exporting_turn::turn(
        lows, owners, keys, slots, lens, values, name_lens, names, counts, places, mail, room,
        numbers, arrived, from, datagram, ack, out,
    )
}
