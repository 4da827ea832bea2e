// Starting a host (document 01, sections 5 and 6): at least one address on the list, no two equal, each short
// enough, the own one among them; the first is the owner of everything. All is tested before anything is
// written, so a refusal leaves memory as it was.
#![tactic(auto)]

ghost use Rattle.std.specs.Prelude.{ℕ, ◌≤◌, ◌<◌, length};
ghost use Rattle.strings.specs.Strings.{WellFormed};
ghost use Rattle.distinct.specs.Distinct.{string};
ghost use Rattle.delegation.specs.Map.{Keeps as KeepsMap};
ghost use Rattle.peers.specs.Names.{Keeps as KeepsNames};
ghost use Rattle.hosts.specs.Memory.{memory};
ghost use Rattle.starting.specs.Inner.{Place, Own, Enlists};
ghost use Rattle.starting.specs.Answers.{AfterStart};

use hosts::State;
use limits::BYTES_MAX;

// Why there is no new host: none starts with such a list, or what is lent does not serve.
#[derive(Clone, Copy, Debug, PartialEq, Eq)]
pub enum Refused {
    NoHost,
    Unfit,
}

// Starts the host with the own address `me`, on a list of n addresses that stand in the bytes, and answers its
// numbers.
pub fn start(
    lows: &mut [u64],
    owners: &mut [u64],
    keys: &[u64],
    slots: &mut [u64],
    lens: &[u64],
    values: &[u8],
    name_lens: &mut [u64],
    names: &mut [u8],
    counts: &mut [u64],
    places: &mut [u64],
    mail: &[u8],
    room: &[u8],
    width: usize,
    size: usize,
    ats: &[u64],
    address_lens: &[u64],
    bytes: &[u8],
    n: usize,
    me: &[u8],
) -> Result<State, Refused>
    ensures { AfterStart (memory lows.old owners.old keys.now slots.old lens.now values.now name_lens.old names.old counts.old places.old mail.now) room.now width size
        ats.now address_lens.now bytes.now n me.now result
        (memory lows.new owners.new keys.now slots.new lens.now values.now name_lens.new names.new counts.new places.new mail.now) }
{
    let Some(own) = own_place(ats, address_lens, bytes, n, me) else {
        return Err(Refused::NoHost);
    };
    if !serving::serves(
        lows.len(),
        owners.len(),
        keys.len(),
        slots.len(),
        lens.len(),
        values.len(),
        name_lens.len(),
        names.len(),
        counts.len(),
        places.len(),
        mail.len(),
        room.len(),
        width,
        size,
        n,
    ) {
        return Err(Refused::Unfit);
    }
    if !strings::none_longer(address_lens, n, width) {
        return Err(Refused::Unfit);
    }
    let bounds = first_owns(lows, owners);
    records::start(keys, slots, lens, values);
    opening::start(counts, places, mail, size);
    enlist(name_lens, names, width, ats, address_lens, bytes, n);
    Ok(serving::begun(own, n, width, size, bounds))
}

// The place of the own address on a list with which a host starts, or None if none starts.
fn own_place(ats: &[u64], lens: &[u64], bytes: &[u8], n: usize, me: &[u8]) -> Option<usize>
    ensures { Own ats.now lens.now bytes.now n me.now result }
{
    if !strings::inside(ats, lens, n, bytes.len())
        || !distinct::distinct(ats, lens, n, bytes)
        || !strings::none_longer(lens, n, BYTES_MAX - 1)
    {
        return None;
    }
    place(ats, lens, bytes, n, me)
}

// The place of the name on the list, or None if it is not there.
fn place(ats: &[u64], lens: &[u64], bytes: &[u8], n: usize, name: &[u8]) -> Option<usize>
    requires { WellFormed ats.now lens.now n (length bytes.now) }
    ensures { Place ats.now lens.now bytes.now n name.now result }
{
    for i in 0..n {
        let at = ats[i] as usize;
        let end = at + lens[i] as usize;
        if memory::same(&bytes[at..end], name) {
            return Some(i);
        }
    }
    None
}

// The first host owns every key. Answers how many bounds that takes.
fn first_owns(lows: &mut [u64], owners: &mut [u64]) -> usize
    requires { (0 < length lows.old) × (0 < length owners.old) }
    ensures { KeepsMap lows.new owners.new result (λ (k : ℕ). 0) }
{
    delegation::start(lows, owners, 0).unwrap_or(0)
}

// Writes down the addresses of the list, one after the other.
fn enlist(
    lens: &mut [u64],
    names: &mut [u8],
    width: usize,
    ats: &[u64],
    address_lens: &[u64],
    bytes: &[u8],
    n: usize,
)
    requires { Enlists (length lens.old) (length names.old) width ats.now address_lens.now bytes.now n }
    ensures { KeepsNames lens.new names.new width n (string ats.now address_lens.now bytes.now) }
{
    for i in 0..n {
        let at = ats[i] as usize;
        let end = at + address_lens[i] as usize;
        // There is room for each of them, so none is refused.
        let _ = peers::add(lens, names, width, i, &bytes[at..end]);
    }
}
