// How many bounds a change of the map would leave, told before it is made. `grants` makes it; what stands in a
// column then is said here, for both, in specs/Edit.antt and proofs/Edited.antt. Nothing is asked of a caller.
#![tactic(auto)]

ghost use Rattle.delegation.specs.Map.{Left};

use keys::Bound;

// How many bounds giving the keys of [lo, hi) to the owner would leave.
pub fn bounds_after(
    lows: &[u64],
    owners: &[u64],
    n: usize,
    lo: Bound,
    hi: Bound,
    owner: u64,
) -> usize
    ensures { Left lows.now owners.now n lo hi owner result }
{
    if !delegation::enough(lows, owners, n) {
        return 0;
    }
    if keys::is_empty(lo, hi) {
        return n;
    }
    let plan = plans::planned(lows, owners, n, lo, hi, owner);
    plan.bounds
}
