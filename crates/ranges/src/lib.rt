// A range of keys picked out of the table of `records`, in rising order.
#![tactic(auto)]

ghost use Rattle.std.specs.Prelude.{◌+◌, ◌≤◌, length};
ghost use Rattle.ranges.specs.Answers.{AfterPick};
ghost use Rattle.ranges.specs.Inner.{Noted};

use keys::Bound;
use limits::NoRoom;

// Writes down the range's entries in rising order: key, place and length of the value. Answers how
// many there are, or that they do not fit what is lent.
pub fn pick(
    keys: &[u64],
    slots: &[u64],
    lens: &[u64],
    values: &[u8],
    n: usize,
    lo: Bound,
    hi: Bound,
    to_keys: &mut [u64],
    to_ats: &mut [u64],
    to_lens: &mut [u64],
) -> Result<usize, NoRoom>
    ensures { AfterPick keys.now slots.now lens.now values.now n lo hi
        to_keys.old to_ats.old to_lens.old result
        to_keys.new to_ats.new to_lens.new }
{
    if keys.len() < n {
        return Ok(0);
    }
    let first = searches::before(keys, n, lo);
    let last = searches::before(keys, n, hi);
    if last <= first {
        return Ok(0);
    }
    let m = last - first;
    if to_keys.len() < m || to_ats.len() < m || to_lens.len() < m {
        return Err(NoRoom);
    }
    note(
        keys, slots, lens, values, n, first, m, to_keys, to_ats, to_lens,
    );
    Ok(m)
}

// Writes down the m entries from place i on.
fn note(
    keys: &[u64],
    slots: &[u64],
    lens: &[u64],
    values: &[u8],
    n: usize,
    i: usize,
    m: usize,
    to_keys: &mut [u64],
    to_ats: &mut [u64],
    to_lens: &mut [u64],
)
    requires { (i + m ≤ n) × (n ≤ length keys.now) × (m ≤ length to_keys.old) × (m ≤ length to_ats.old) × (m ≤ length to_lens.old) }
    ensures { Noted keys.now slots.now lens.now values.now n i m
        to_keys.new to_ats.new to_lens.new }
{
    for y in 0..m {
        let key = keys[i + y];
        let (at, len) = records::get(keys, slots, lens, values, n, key).unwrap_or((0, 0));
        to_keys[y] = key;
        to_ats[y] = at as u64;
        to_lens[y] = len as u64;
    }
}
