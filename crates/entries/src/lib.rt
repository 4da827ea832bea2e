// Replacing a range by a list of entries. The list is handed in as columns of m places: keys, which
// rise strictly, and where in the bytes each value stands.
#![tactic(auto)]

ghost use Rattle.std.specs.Prelude.{◌≡◌, ◌≤◌, length};
ghost use Rattle.entries.specs.Answers.{AfterReplace, refusal_of};
ghost use Rattle.entries.specs.Inner.{AfterOne, AfterStores};

use keys::Bound;

// Why a range is not replaced. Then nothing has changed.
#[derive(Clone, Copy, Debug, PartialEq, Eq)]
pub enum Refused {
    Full,
    TooLong,
    Malformed,
}

impl From<entered::Refused> for Refused {
    ghost from_gives = { λ why r. r ≡ refusal_of why };

    fn from(why: entered::Refused) -> Self {
        match why {
            entered::Refused::TooLong => Refused::TooLong,
            entered::Refused::Malformed => Refused::Malformed,
        }
    }
}

// Replaces the range by the entries, and answers how many entries there are then.
pub fn replace(
    keys: &mut [u64],
    slots: &mut [u64],
    lens: &mut [u64],
    values: &mut [u8],
    n: usize,
    lo: Bound,
    hi: Bound,
    ks: &[u64],
    ats: &[u64],
    ls: &[u64],
    m: usize,
    bytes: &[u8],
) -> Result<usize, Refused>
    ensures { AfterReplace keys.old slots.old lens.old values.old n lo hi
        ks.now ats.now ls.now bytes.now m result
        keys.new slots.new lens.new values.new }
{
    entered::check(ks, ats, ls, m, bytes)?;
    if slots.len() < counts::left(keys, n, lo, hi, ks, m) {
        return Err(Refused::Full);
    }
    let rest = removals::remove(keys, slots, n, lo, hi);
    let now = store(keys, slots, lens, values, rest, ks, ats, ls, m, bytes);
    Ok(now)
}

// Stores the m entries one after the other, and answers how many entries there are then.
fn store(
    keys: &mut [u64],
    slots: &mut [u64],
    lens: &mut [u64],
    values: &mut [u8],
    n: usize,
    ks: &[u64],
    ats: &[u64],
    ls: &[u64],
    m: usize,
    bytes: &[u8],
) -> usize
    requires { (m ≤ length ks.now) × (m ≤ length ats.now) × (m ≤ length ls.now) }
    ensures { AfterStores keys.old slots.old lens.old values.old n
        ks.now ats.now ls.now bytes.now m result
        keys.new slots.new lens.new values.new }
{
    let mut now = n;
    for t in 0..m {
        let at = ats[t] as usize;
        let len = ls[t] as usize;
        now = store_one(keys, slots, lens, values, now, ks[t], at, len, bytes);
    }
    now
}

// Stores one entry. What does not fit is passed over: that never happens after the checks before.
fn store_one(
    keys: &mut [u64],
    slots: &mut [u64],
    lens: &mut [u64],
    values: &mut [u8],
    n: usize,
    key: u64,
    at: usize,
    len: usize,
    bytes: &[u8],
) -> usize
    ensures { AfterOne keys.old slots.old lens.old values.old n key at len
        bytes.now result keys.new slots.new lens.new values.new }
{
    if bytes.len() < at || bytes.len() - at < len {
        return n;
    }
    let value = &bytes[at..at + len];
    stores::set(keys, slots, lens, values, n, key, value).unwrap_or(n)
}
