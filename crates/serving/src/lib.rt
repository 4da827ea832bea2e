// Can what is lent serve a host, by lengths alone (document 01, section 6)? And the numbers of a host that has
// only started.
#![tactic(auto)]

ghost use Rattle.std.specs.Prelude.{◌≡◌};
ghost use Rattle.serving.specs.Answers.{Tells, Datagrams, Lengths, begun};

use delivery::WORDS;
use hosts::State;
use limits::{BYTES_MAX, DATAGRAM_MIN, DELEGATE_MAX, REDIRECT_MAX};

// Can slices of these lengths serve n hosts? How long the addresses are is not looked at.
pub fn serves(
    lows: usize,
    owners: usize,
    keys: usize,
    slots: usize,
    lens: usize,
    values: usize,
    name_lens: usize,
    names: usize,
    counts: usize,
    places: usize,
    mail: usize,
    room: usize,
    width: usize,
    size: usize,
    n: usize,
) -> bool
    ensures { Tells (Lengths lows owners keys slots lens values name_lens names counts places mail room width size n) result }
{
    datagrams_fit(width, size, room)
        && lows > 0
        && owners > 0
        && name_lens >= n
        && names / width >= n
        && counts / WORDS >= n
        && places >= WORDS
        && mail / size >= places / WORDS
        && records::fits(keys, slots, lens, values, 0)
}

// Does every message that a host sends fit a datagram of that size, and a datagram the room?
fn datagrams_fit(width: usize, size: usize, room: usize) -> bool
    ensures { Tells (Datagrams width size room) result }
{
    width > 0
        && width < BYTES_MAX
        && size >= DELEGATE_MAX + width
        && size >= REDIRECT_MAX + width + width
        && size >= DATAGRAM_MIN
        && size <= room
}

// The numbers of a host that has only started.
pub fn begun(own: usize, n: usize, width: usize, size: usize, bounds: usize) -> State
    ensures { result ≡ begun own n width size bounds }
{
    State {
        me: own,
        hosts: n,
        peers: n,
        width,
        size,
        bounds,
        entries: 0,
        len: 0,
        from: 0,
        transfers: 1,
        turns: 0,
    }
}
