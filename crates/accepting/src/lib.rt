// A transfer that is taken: the row of the Delegate in document 01, section 5. The range becomes the
// host's, with exactly the entries that were sent. The room test has made sure that there is room.
#![tactic(auto)]

ghost use Rattle.accepting.specs.Answers.{AfterDelegate};
ghost use Rattle.lent.specs.Parts.{IndexStays, MapStays, StringsStay};
ghost use Rattle.accepting.specs.Inner.{AfterTake};

use hosts::{Done, Processed, State};
use keys::Bound;
use lent::{Index, Map, Strings};
use limits::ENTRIES_LIMIT;
use message::ListView;

// Processes the Delegate whose list stands in the datagram s.
pub fn delegate(
    map: &mut Map<&mut [u64]>,
    index: &mut Index<&mut [u64]>,
    values: &mut Strings<&mut [u64], &mut [u8]>,
    k: State,
    s: &[u8],
    lo: Bound,
    hi: Bound,
    list: ListView,
) -> Done
    ensures stays { MapStays map.old map.new × IndexStays index.old index.new × StringsStay values.old values.new }
    ensures is { AfterDelegate map.old.lows.now map.old.owners.now index.old.keys.now index.old.slots.now values.old.lens.now
        values.old.bytes.now k s.now lo hi list result map.new.lows.now map.new.owners.now index.new.keys.now index.new.slots.now
        values.new.lens.now values.new.bytes.now }
{
    let m = list.count as usize;
    if !delegates::fine(k, lo, hi, m) {
        return hosts::dropped(k);
    }
    // the list as columns; it has fewer entries than they have places
    let mut ks = [0u64; ENTRIES_LIMIT];
    let mut ats = [0u64; ENTRIES_LIMIT];
    let mut ls = [0u64; ENTRIES_LIMIT];
    if !delegates::columns(s, list.at, m, &mut ks, &mut ats, &mut ls) {
        return hosts::dropped(k);
    }
    take(map, index, values, k, s, lo, hi, &ks, &ats, &ls, m)
}

// Gives the range to the host and puts the entries in it. What does not fit is dropped: that never
// happens after the room test.
fn take(
    map: &mut Map<&mut [u64]>,
    index: &mut Index<&mut [u64]>,
    values: &mut Strings<&mut [u64], &mut [u8]>,
    k: State,
    s: &[u8],
    lo: Bound,
    hi: Bound,
    ks: &[u64],
    ats: &[u64],
    ls: &[u64],
    m: usize,
) -> Done
    ensures stays { MapStays map.old map.new × IndexStays index.old index.new × StringsStay values.old values.new }
    ensures is { AfterTake map.old.lows.now map.old.owners.now index.old.keys.now index.old.slots.now values.old.lens.now
        values.old.bytes.now k s.now lo hi ks.now ats.now ls.now m result map.new.lows.now
        map.new.owners.now index.new.keys.now index.new.slots.now values.new.lens.now values.new.bytes.now }
{
    let Ok(bounds) = grants::set(map.lows, map.owners, k.bounds, lo, hi, k.me as u64) else {
        return hosts::dropped(k);
    };
    let Ok(entries) = entries::replace(
        index.keys,
        index.slots,
        values.lens,
        values.bytes,
        k.entries,
        lo,
        hi,
        ks,
        ats,
        ls,
        m,
        s,
    ) else {
        return hosts::dropped(k);
    };
    Done {
        state: hosts::moved(k, bounds, entries),
        outcome: Processed::Accepted,
    }
}
