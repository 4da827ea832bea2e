// What giving a range away does with the bounds of a map, and whether a whole range is one owner's:
// both ask where the ends of the range fall among the bounds. What a map is, and which memory keeps
// one, is `delegation`'s; `grants` carries a plan out. Nothing is asked of a caller.
#![tactic(auto)]

ghost use Rattle.std.specs.Prelude.{◌≡◌, ◌-◌, ◌<◌, ◌≤◌, length, get_or};
ghost use Rattle.delegation.specs.Map.{Whole};
ghost use Rattle.searches.specs.Search.{Before};
ghost use Rattle.plans.specs.Plan.{Through, EndsWith, Planned, turned};

use keys::Bound;

// What giving a range away does with the bounds: those from `first` up to `last` go, and in their
// place come one at lo, one at hi with the owner `after`, both, or neither. The two flags are for both columns, whose new
// values differ, so neither is an Option of a value.
#[derive(Clone, Copy)]
pub struct Plan {
    pub first: usize,
    pub last: usize,
    pub low: bool,
    pub high: bool,
    pub after: u64,
    pub bounds: usize,
}

// What giving [lo, hi), which is not empty, to the owner does with the n bounds. A bound is put only
// where the owner changes, so neighbours stay joined. Those below lo are counted among the ones up to
// hi, so that first is at most last even in memory that keeps no map. Where n bounds do not fit what
// is lent there is no map, and the plan is to leave them as they are.
pub fn planned(lows: &[u64], owners: &[u64], n: usize, lo: Bound, hi: Bound, owner: u64) -> Plan
    ensures { Planned lows.now owners.now n lo hi owner result }
{
    if !delegation::enough(lows, owners, n) {
        return Plan {
            first: 0,
            last: 0,
            low: false,
            high: false,
            after: 0,
            bounds: n,
        };
    }
    let last = through(lows, n, hi);
    let first = before(lows, last, lo);
    let joined = ends_with(owners, first, owner);
    let after = owner_of(owners, last);
    let high = turns(hi, after, owner);
    let bounds = first + usize::from(!joined) + usize::from(high) + (n - last);
    Plan {
        first,
        last,
        low: !joined,
        high,
        after,
        bounds,
    }
}

// Is every key of [lo, hi) that owner's? Since neighbours are joined, that is so only if no bound lies
// inside the range and the last one at or below lo has that owner.
pub fn whole(lows: &[u64], owners: &[u64], n: usize, lo: Bound, hi: Bound, owner: u64) -> bool
    ensures { Whole lows.now owners.now n lo hi owner result }
{
    if !delegation::enough(lows, owners, n) {
        return false;
    }
    if keys::is_empty(lo, hi) {
        return true;
    }
    let at = through(lows, n, lo);
    let end = before(lows, n, hi);
    if at != end {
        return false;
    }
    ends_with(owners, at, owner)
}

// How many of the first `among` bounds lie below b. End is no key: every bound lies below it.
fn before(lows: &[u64], among: usize, b: Bound) -> usize
    ensures { Before lows.now among b result }
{
    match b {
        Bound::Key(k) => {
            if k == 0 {
                return 0;
            }
            delegation::upto(lows, among, k - 1)
        }
        Bound::End => among,
    }
}

// How many of the n bounds lie at b or below it.
fn through(lows: &[u64], n: usize, b: Bound) -> usize
    ensures { Through lows.now n b result }
{
    match b {
        Bound::Key(k) => delegation::upto(lows, n, k),
        Bound::End => n,
    }
}

// Are there bounds among the first n, and is the last of them that owner's?
fn ends_with(owners: &[u64], n: usize, owner: u64) -> bool
    requires { n ≤ length owners.now }
    ensures { EndsWith owners.now n owner result }
{
    0 < n && owners[n - 1] == owner
}

// The owner of the last of the first n bounds.
fn owner_of(owners: &[u64], n: usize) -> u64
    requires { n ≤ length owners.now }
    ensures { 0 < n → result ≡ get_or owners.now (n - 1) 0 }
{
    owners[..n].last().copied().unwrap_or(0)
}

// Does the owner change at hi, where the keys are `after`'s from hi on?
fn turns(hi: Bound, after: u64, owner: u64) -> bool
    ensures { result ≡ turned hi after owner }
{
    match hi {
        Bound::Key(_) => after != owner,
        Bound::End => false,
    }
}
