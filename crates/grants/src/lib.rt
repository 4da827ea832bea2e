// Giving the keys of a range to an owner. `plans` says what to do with the bounds, and it is done to both
// columns alike. Nothing is asked of a caller.
#![tactic(auto)]

ghost use Rattle.std.specs.Prelude.{◌≡◌, ◌+◌, ◌≤◌, length};
ghost use Rattle.delegation.specs.Map.{AfterSet};
ghost use Rattle.plans.specs.Plan.{Edited, key_of, count};
ghost use Rattle.bounding.specs.Edit.{Editable, put};

use keys::Bound;
use limits::NoRoom;
use plans::Plan;

// Gives the keys of [lo, hi) to the owner. An empty range changes nothing.
pub fn set(
    lows: &mut [u64],
    owners: &mut [u64],
    n: usize,
    lo: Bound,
    hi: Bound,
    owner: u64,
) -> Result<usize, NoRoom>
    ensures { AfterSet lows.old owners.old n lo hi owner result lows.new owners.new }
{
    if !delegation::enough(lows, owners, n) {
        return Err(NoRoom);
    }
    if keys::is_empty(lo, hi) {
        return Ok(n);
    }
    let plan = plans::planned(lows, owners, n, lo, hi, owner);
    if lows.len() < plan.bounds {
        return Err(NoRoom);
    }
    if owners.len() < plan.bounds {
        return Err(NoRoom);
    }
    edit(lows, n, plan, key(lo), key(hi));
    edit(owners, n, plan, owner, plan.after);
    Ok(plan.bounds)
}

// One column of a change. The bound at hi is put first, and then the one at lo before it.
fn edit(column: &mut [u64], n: usize, plan: Plan, low: u64, high: u64)
    requires { Editable column.old n plan }
    ensures { Edited column.old n plan low high column.new }
{
    columns::cut(column, n, plan.first, plan.last);
    let kept = plan.first + (n - plan.last);
    let more = put(column, kept, plan.first, high, plan.high);
    put(column, more, plan.first, low, plan.low);
}

// Puts v before the element at `at` if that is wanted, and answers how many count then.
fn put(column: &mut [u64], n: usize, at: usize, v: u64, wanted: bool) -> usize
    requires { (at ≤ n) × (n + count wanted ≤ length column.old) }
    ensures { (result ≡ n + count wanted) × (column.new ≡ put wanted column.old n at v) }
{
    if wanted {
        columns::insert(column, n, at, v);
        return n + 1;
    }
    n
}

// A bound's key. That of end is never used, since no bound is put there.
fn key(b: Bound) -> u64
    ensures { result ≡ key_of b }
{
    match b {
        Bound::Key(k) => k,
        Bound::End => 0,
    }
}
