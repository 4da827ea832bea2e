// Entries taken out of the table of `records`: one, or those of a range. Keys and slot numbers move, values
// stay; the slots that become free go behind those in use.
#![tactic(auto)]

ghost use Rattle.std.specs.Prelude.{◌≤◌, length};
ghost use Rattle.removals.specs.Answers.{AfterDelete, AfterRemove};
ghost use Rattle.removals.specs.Inner.{AfterSpan, Sunk};

use keys::Bound;

// Takes the key's entry out, if it has one, and answers how many entries are left.
pub fn delete(keys: &mut [u64], slots: &mut [u64], n: usize, key: u64) -> usize
    ensures { AfterDelete keys.old slots.old n key result keys.new slots.new }
{
    if keys.len() < n || slots.len() < n {
        return n;
    }
    match searches::seek(keys, n, key) {
        Ok(i) => span(keys, slots, n, i, i + 1),
        Err(_) => n,
    }
}

// Takes the range's entries out, and answers how many entries are left.
pub fn remove(keys: &mut [u64], slots: &mut [u64], n: usize, lo: Bound, hi: Bound) -> usize
    ensures { AfterRemove keys.old slots.old n lo hi result keys.new slots.new }
{
    if keys.len() < n || slots.len() < n {
        return n;
    }
    let i = searches::before(keys, n, lo);
    let j = searches::before(keys, n, hi);
    if j <= i {
        return n;
    }
    span(keys, slots, n, i, j)
}

// Takes the entries from place i up to place j out: their slots become free.
fn span(keys: &mut [u64], slots: &mut [u64], n: usize, i: usize, j: usize) -> usize
    requires { (i ≤ j) × (j ≤ n) × (n ≤ length keys.old) × (n ≤ length slots.old) }
    ensures { AfterSpan keys.old slots.old n i j result keys.new slots.new }
{
    columns::cut(keys, n, i, j);
    sink(slots, n, i, j);
    n - (j - i)
}

// Moves those from j on down to i, and those from i up to j behind them, by swapping one by one: as many swaps as
// there are to move down. Where one goes, that is to turn the part by one, which is a single move.
fn sink(slots: &mut [u64], n: usize, i: usize, j: usize)
    requires { (i ≤ j) × (j ≤ n) × (n ≤ length slots.old) }
    ensures { Sunk slots.old n i j slots.new }
{
    let gone = j - i;
    if gone == 1 {
        slots[i..n].rotate_left(1);
        return;
    }
    for from in j..n {
        let slot = slots[from - gone];
        slots[from - gone] = slots[from];
        slots[from] = slot;
    }
}
