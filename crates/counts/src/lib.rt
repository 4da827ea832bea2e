// How many entries of the table of `records` a range has, and how many a replacement would leave. The table
// is not touched.
#![tactic(auto)]

ghost use Rattle.counts.specs.Answers.{Counted, Left};
ghost use Rattle.counts.specs.Inner.{IsNew};

use keys::Bound;

// How many entries the range has.
pub fn count(keys: &[u64], n: usize, lo: Bound, hi: Bound) -> usize
    ensures { Counted keys.now n lo hi result }
{
    if keys.len() < n {
        return 0;
    }
    let i = searches::before(keys, n, lo);
    let j = searches::before(keys, n, hi);
    j.saturating_sub(i)
}

// How many entries replacing the range by entries with these keys would leave.
pub fn left(keys: &[u64], n: usize, lo: Bound, hi: Bound, ks: &[u64], m: usize) -> usize
    ensures { Left keys.now n lo hi ks.now m result }
{
    if keys.len() < n || ks.len() < m {
        return 0;
    }
    let mut left = n - count(keys, n, lo, hi);
    for k in &ks[..m] {
        if is_new(keys, n, lo, hi, *k) {
            left += 1;
        }
    }
    left
}

// Does the key get a place of its own, since it has no entry outside the range?
fn is_new(keys: &[u64], n: usize, lo: Bound, hi: Bound, key: u64) -> bool
    ensures { IsNew keys.now n lo hi key result }
{
    keys::contains(lo, hi, key) || searches::seek(keys, n, key).is_err()
}
