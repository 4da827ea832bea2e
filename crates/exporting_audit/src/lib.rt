// Does memory keep a host, with its numbers in lent words?
// C lends plain slices, so they stand side by side here and are no parts yet.
#![tactic(auto)]

ghost use Rattle.hosts.specs.Memory.{memory};
ghost use Rattle.exporting_audit.specs.Answers.{Auditing};

use numbers::WORDS;

// Answers 1 if memory keeps a host, 0 if it keeps none, or 2. Changes nothing, and is for audits, not for steps.
pub fn audit(
    lows: &[u64],
    owners: &[u64],
    keys: &[u64],
    slots: &[u64],
    lens: &[u64],
    values: &[u8],
    name_lens: &[u64],
    names: &[u8],
    counts: &[u64],
    places: &[u64],
    mail: &[u8],
    room: &[u8],
    numbers: &[u64],
) -> u64
    ensures { Auditing (memory lows.now owners.now keys.now slots.now lens.now values.now name_lens.now names.now counts.now places.now mail.now)
        room.now numbers.now result }
{
    if numbers.len() < WORDS {
        return codes::UNFIT;
    }
    let k = numbers::load(numbers);
    codes::audited(auditing::audit(
        lows, owners, keys, slots, lens, values, name_lens, names, counts, places, mail, room, k,
    ))
}
