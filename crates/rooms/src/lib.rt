// The room test of document 01, section 6: is there room for all that a message may need? What there will
// be is counted, not what there might be at most; a message that would only be dropped needs nothing.
// Nothing is changed here, and nothing is asked of a caller.
#![tactic(auto)]

ghost use Rattle.std.specs.Prelude.{is_some};
ghost use Rattle.rooms.specs.Answers.{Tested};
ghost use Rattle.rooms.specs.Inner.{ShardTested, DelegateTested};

use format::Part;
use hosts::State;
use keys::Bound;
use lent::{Index, Map, Strings};
use limits::ENTRIES_LIMIT;
use message::{BodyView, ListView};

// The hint where no place was looked for.
const NO_HINT: usize = 0;

// Is there room for the message with that body, which stands in the datagram s and came from that address? If
// there is, the answer is a place as a hint, where one was found free; if none was looked for, it says nothing.
pub fn roomy(
    map: Map<&[u64]>,
    index: Index<&[u64]>,
    names: Strings<&[u64], &[u8]>,
    places: &[u64],
    k: State,
    from: &[u8],
    s: &[u8],
    body: BodyView,
) -> Option<usize>
    ensures { Tested map.entry.lows.now map.entry.owners.now index.entry.keys.now index.entry.slots.now names.entry.lens.now names.entry.bytes.now places.now k from.now s.now body (is_some result) }
{
    match body {
        BodyView::Get(_) => picking::free(places),
        BodyView::Set(_, v) => {
            if sets::too_long(v) {
                return Some(NO_HINT);
            }
            picking::free(places)
        }
        BodyView::Reply(_, _) => Some(NO_HINT),
        BodyView::Redirect(_, _) => Some(NO_HINT),
        BodyView::Shard(lo, hi, to) => shard(map, index.keys, names, places, k, s, lo, hi, to),
        BodyView::Delegate(lo, hi, list) => {
            if !delegate(map, index, names, k, from, s, lo, hi, list) {
                return None;
            }
            Some(NO_HINT)
        }
    }
}

// A Shard that would be refused needs nothing; another needs a place for the Delegate, and room in the map.
fn shard(
    map: Map<&[u64]>,
    keys: &[u64],
    names: Strings<&[u64], &[u8]>,
    places: &[u64],
    k: State,
    s: &[u8],
    lo: Bound,
    hi: Bound,
    to: Part,
) -> Option<usize>
    ensures { ShardTested map.entry.lows.now map.entry.owners.now keys.now names.entry.lens.now
        names.entry.bytes.now places.now k s.now lo hi to (is_some result) }
{
    let Some(i) = shards::recipient(names, k, s, to) else {
        return Some(NO_HINT);
    };
    if !shards::movable(map, keys, k, lo, hi) {
        return Some(NO_HINT);
    }
    let place = picking::free(places)?;
    if !shards::fits(map, k.bounds, lo, hi, i) {
        return None;
    }
    Some(place)
}

// A Delegate that would be dropped needs nothing; another needs room in the map and in the table.
fn delegate(
    map: Map<&[u64]>,
    index: Index<&[u64]>,
    names: Strings<&[u64], &[u8]>,
    k: State,
    from: &[u8],
    s: &[u8],
    lo: Bound,
    hi: Bound,
    list: ListView,
) -> bool
    ensures { DelegateTested map.entry.lows.now map.entry.owners.now index.entry.keys.now index.entry.slots.now
        names.entry.lens.now names.entry.bytes.now k from.now s.now lo hi list result }
{
    let Some(i) = finding::find(names.lens, names.bytes, k.width, k.hosts, from) else {
        return true;
    };
    let m = list.count as usize;
    if !delegates::fine(State { from: i, ..k }, lo, hi, m) {
        return true;
    }
    let mut ks = [0u64; ENTRIES_LIMIT];
    let mut ats = [0u64; ENTRIES_LIMIT];
    let mut ls = [0u64; ENTRIES_LIMIT];
    if !delegates::columns(s, list.at, m, &mut ks, &mut ats, &mut ls) {
        return true;
    }
    if !shards::fits(map, k.bounds, lo, hi, k.me) {
        return false;
    }
    counts::left(index.keys, k.entries, lo, hi, &ks, m) <= index.slots.len()
}
