// Does memory keep a host? For audits, not for steps: a part of it takes a turn for each pair of places or
// of peers, and every datagram that waits is read.
#![tactic(auto)]

ghost use Rattle.hosts.specs.Memory.{memory};
ghost use Rattle.auditing.specs.Answers.{Audited};
ghost use Rattle.auditing.specs.Inner.{Agreeing};

use hosts::State;
use lent::{Index, Map, Strings};
use limits::{BYTES_MAX, DELEGATE_MAX, REDIRECT_MAX};

// Does memory keep a host at all, all of whose waiting messages may be written?
pub fn audit(
    lows: &[u64],
    owners: &[u64],
    keys: &[u64],
    slots: &[u64],
    lens: &[u64],
    values: &[u8],
    name_lens: &[u64],
    names: &[u8],
    counts: &[u64],
    places: &[u64],
    mail: &[u8],
    room: &[u8],
    k: State,
) -> bool
    ensures { Audited (memory lows.now owners.now keys.now slots.now lens.now values.now name_lens.now names.now counts.now places.now mail.now)
        k room.now result }
{
    if !agreeing(k) {
        return false;
    }
    if !audits_names::valid(name_lens, names, k.width, k.peers) {
        return false;
    }
    if !audits_map::valid(lows, owners, k.bounds, k.hosts) {
        return false;
    }
    if !audits::valid(keys, slots, lens, values, k.entries) {
        return false;
    }
    if !audits_post::valid(counts, places, mail, k.size, k.peers) {
        return false;
    }
    if !audits_mail::valid(name_lens, names, places, mail, k.width, k.size) {
        return false;
    }
    let map = Map { lows, owners };
    let index = Index { keys, slots };
    let known = Strings {
        lens: name_lens,
        bytes: names,
    };
    audits_room::valid(map, index, known, places, room, k)
}

// Do the plain numbers agree: does every message that a host sends fit a datagram, are the hosts among the
// peers, and this host among the hosts?
fn agreeing(k: State) -> bool
    ensures { Agreeing k result }
{
    k.width < BYTES_MAX
        && DELEGATE_MAX + k.width <= k.size
        && REDIRECT_MAX + k.width + k.width <= k.size
        && k.hosts <= k.peers
        && k.me < k.hosts
}
