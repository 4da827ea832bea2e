// A host is started, and its numbers are written into lent words.
// C lends plain slices, so they stand side by side here and are no parts yet.
#![tactic(auto)]

ghost use Rattle.hosts.specs.Memory.{memory};
ghost use Rattle.exporting_start.specs.Answers.{Starting, Kept};

use hosts::State;
use numbers::WORDS;
use starting::Refused;

// Answers 0, 1 or 2. The numbers are written only where a host starts.
pub fn start(
    lows: &mut [u64],
    owners: &mut [u64],
    keys: &[u64],
    slots: &mut [u64],
    lens: &[u64],
    values: &[u8],
    name_lens: &mut [u64],
    names: &mut [u8],
    counts: &mut [u64],
    places: &mut [u64],
    mail: &[u8],
    room: &[u8],
    numbers: &mut [u64],
    width: usize,
    size: usize,
    ats: &[u64],
    address_lens: &[u64],
    bytes: &[u8],
    n: usize,
    me: &[u8],
) -> u64
    ensures { Starting (memory lows.old owners.old keys.now slots.old lens.now values.now name_lens.old names.old counts.old places.old mail.now) room.now numbers.old width size
        ats.now address_lens.now bytes.now n me.now result
        (memory lows.new owners.new keys.now slots.new lens.now values.now name_lens.new names.new counts.new places.new mail.now) numbers.new }
{
    if numbers.len() < WORDS {
        return codes::UNFIT;
    }
    let started = starting::start(
        lows,
        owners,
        keys,
        slots,
        lens,
        values,
        name_lens,
        names,
        counts,
        places,
        mail,
        room,
        width,
        size,
        ats,
        address_lens,
        bytes,
        n,
        me,
    );
    kept(numbers, started)
}

// Writes down the numbers of a host that was started. Answers what became of starting.
fn kept(numbers: &mut [u64], started: Result<State, Refused>) -> u64
    ensures { Kept started numbers.old numbers.new result }
{
    match started {
        Ok(k) => {
            numbers::store(numbers, k, 0);
            codes::STARTED
        }
        Err(Refused::NoHost) => codes::NO_HOST,
        Err(Refused::Unfit) => codes::UNFIT,
    }
}
