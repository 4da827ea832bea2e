// The tests on a Shard (document 01, section 5), which the room test and the processing share: who gets the
// range, is the range this host's, can it be moved, and does the map fit what is lent then. Nothing is changed here.
#![tactic(auto)]

ghost use Rattle.shards.specs.Answers.{AfterRecipient, HasKey, Mine, Movable, Fits};

use format::Part;
use hosts::State;
use keys::Bound;
use lent::{Map, Strings};
use limits::ENTRIES_LIMIT;

// The number of the host that is to get the range: any but this one.
pub fn recipient(names: Strings<&[u64], &[u8]>, k: State, s: &[u8], to: Part) -> Option<usize>
    ensures { AfterRecipient names.entry.lens.now names.entry.bytes.now k s.now to result }
{
    let from = to.at;
    if s.len() < from || s.len() - from < to.len {
        return None;
    }
    let end = from + to.len;
    let i = finding::find(names.lens, names.bytes, k.width, k.hosts, &s[from..end])?;
    if i == k.me {
        return None;
    }
    Some(i)
}

// Has the range a key, and is every key of it this host's?
pub fn all_mine(map: Map<&[u64]>, k: State, lo: Bound, hi: Bound) -> bool
    ensures { Mine map.entry.lows.now map.entry.owners.now k lo hi result }
{
    some_key(lo, hi) && plans::whole(map.lows, map.owners, k.bounds, lo, hi, k.me as u64)
}

// Has the range a key? If so, its bounds can be written: a key has 64 bits.
fn some_key(lo: Bound, hi: Bound) -> bool
    ensures { HasKey lo hi result }
{
    keys::is_below(lo, hi)
}

// Has the range a key, is every key of it this host's, and has it few enough entries for a transfer?
pub fn movable(map: Map<&[u64]>, keys: &[u64], k: State, lo: Bound, hi: Bound) -> bool
    ensures { Movable map.entry.lows.now map.entry.owners.now keys.now k lo hi result }
{
    !keys::is_empty(lo, hi)
        && plans::whole(map.lows, map.owners, k.bounds, lo, hi, k.me as u64)
        && counts::count(keys, k.entries, lo, hi) < ENTRIES_LIMIT
}

// Does the map fit what is lent, once the range is given to host i?
pub fn fits(map: Map<&[u64]>, bounds: usize, lo: Bound, hi: Bound, i: usize) -> bool
    ensures { Fits map.entry.lows.now map.entry.owners.now bounds lo hi i result }
{
    let after = bounding::bounds_after(map.lows, map.owners, bounds, lo, hi, i as u64);
    after <= map.lows.len() && after <= map.owners.len()
}
