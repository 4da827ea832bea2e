// The map from key to owner in lent memory: document 01, section 2.
//
// `lows` has the lower bounds in rising order, the first always the key 0, and `owners` the owner of
// each bound up to the next; the first n of both count. Neighbours with one owner are joined, so
// there are only as many bounds as real changes of owner. What memory keeps, and what each answer
// says, stands in specs/Map.antt. Nothing is asked of a caller: memory that keeps no map gets an
// answer too, which then says nothing.
//
// Here a map is begun and read. `plans` works out what giving a range away does with the bounds, and
// `grants` does it.
#![tactic(auto)]

ghost use Rattle.std.specs.Prelude.{◌≤◌, ◌<◌, ℕ, length, get_or};
ghost use Rattle.columns.specs.Column.{Upto};
ghost use Rattle.delegation.specs.Map.{AfterStart, Enough, Owner};

use limits::NoRoom;

// At most so many bounds are looked through one by one.
const NEAR: usize = 16;

// All keys to one owner. Answers how many bounds there are then.
pub fn start(lows: &mut [u64], owners: &mut [u64], owner: u64) -> Result<usize, NoRoom>
    ensures { AfterStart lows.old owners.old owner result lows.new owners.new }
{
    if lows.is_empty() || owners.is_empty() {
        return Err(NoRoom);
    }
    lows[0] = 0;
    owners[0] = owner;
    Ok(1)
}

// Whose is the key?
pub fn owner(lows: &[u64], owners: &[u64], n: usize, key: u64) -> u64
    ensures { Owner lows.now owners.now n key result }
{
    let at = upto(lows, n, key);
    if at == 0 || owners.len() < at {
        return 0;
    }
    owners[at - 1]
}

// Is there a bound at all, and do n bounds fit what is lent?
pub fn enough(lows: &[u64], owners: &[u64], n: usize) -> bool
    ensures { Enough lows.now owners.now n result }
{
    0 < n && n <= lows.len() && n <= owners.len()
}

// How many of the n bounds lie at or below the key. The first bounds are looked through one by one, and then one
// twice as far from the front as the last, or the last there is, until a bound lies above the key; a search by halving
// has those between the two. So a key of the first bounds is found at once, however many there are.
pub fn upto(lows: &[u64], n: usize, key: u64) -> usize
    ensures { Upto lows.now n key result }
{
    let end = n.min(lows.len());
    let near = end.min(NEAR);
    for i in 0..near {
        if key < lows[i] {
            return i;
        }
    }
    beyond(lows, end, near, key)
}

// The same, where the bounds before `near` lie at or below the key.
fn beyond(lows: &[u64], end: usize, near: usize, key: u64) -> usize
    requires { (near ≤ end) × (end ≤ length lows.now) × ((i : ℕ) → i < near → get_or lows.now i 0 ≤ key) }
    ensures { Upto lows.now end key result }
{
    let mut known = near;
    while known < end {
        let far = known + known.max(1).min(end - known);
        if key < lows[far - 1] {
            return known + searches::upto(&lows[known..far - 1], far - 1 - known, key);
        }
        known = far;
    }
    known
}
