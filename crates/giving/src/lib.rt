// A range is given away: it becomes the recipient's in the map, and its entries are taken out of the table.
#![tactic(auto)]

ghost use Rattle.lent.specs.Parts.{MapStays, IndexStays};
ghost use Rattle.giving.specs.Answers.{AfterGive};

use hosts::{Done, Processed, State};
use keys::Bound;
use lent::{Index, Map};

// Gives the range to host i and takes its entries out; the Delegate waits in place p.
pub fn give(
    map: &mut Map<&mut [u64]>,
    index: &mut Index<&mut [u64]>,
    k: State,
    lo: Bound,
    hi: Bound,
    i: usize,
    p: usize,
) -> Done
    ensures stays { MapStays map.old map.new × IndexStays index.old index.new }
    ensures is { AfterGive map.old.lows.now map.old.owners.now index.old.keys.now index.old.slots.now k lo hi i p result
        map.new.lows.now map.new.owners.now index.new.keys.now index.new.slots.now }
{
    let Ok(bounds) = grants::set(map.lows, map.owners, k.bounds, lo, hi, i as u64) else {
        return hosts::dropped(k);
    };
    let entries = removals::remove(index.keys, index.slots, k.entries, lo, hi);
    Done {
        state: hosts::moved(k, bounds, entries),
        outcome: Processed::Handed(p),
    }
}
