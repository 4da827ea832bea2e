// Keys, bounds and ranges: document 01, section 1.
//
// A key is 64 bits. A bound is a key or "end", which lies above every key and is no key itself: the
// range up to the key 2^64 - 1 leaves that key out, the range up to end has it. A range [lo, hi) is
// passed as its two bounds. What each answer means stands in specs/Bound.antt.
#![tactic(auto)]

ghost use Rattle.std.specs.Prelude.{◌≡◌, not};
ghost use Rattle.keys.specs.Bound.{below, holds, order};

use std::cmp::Ordering;

// Bounds are compared as they are listed: keys by their numbers, and end above every key.
#[derive(Clone, Copy, Debug, PartialEq, Eq, PartialOrd, Ord)]
pub enum Bound {
    Key(u64),
    End,
}

// Does a lie below b?
pub fn is_below(a: Bound, b: Bound) -> bool
    ensures { result ≡ below a b }
{
    a < b
}

// Where a lies, seen from b.
pub fn compare(a: Bound, b: Bound) -> Ordering
    ensures { result ≡ order a b }
{
    a.cmp(&b)
}

// Does the range [lo, hi) hold no key?
pub fn is_empty(lo: Bound, hi: Bound) -> bool
    ensures { result ≡ not (below lo hi) }
{
    !is_below(lo, hi)
}

// Does the range [lo, hi) hold the key?
pub fn contains(lo: Bound, hi: Bound, key: u64) -> bool
    ensures { result ≡ holds lo hi key }
{
    let bound = Bound::Key(key);
    !is_below(bound, lo) && is_below(bound, hi)
}
