// The tests on a Delegate (document 01, section 5), which the room test and the processing share, and its list
// written down as columns.
#![tactic(auto)]

ghost use Rattle.delegates.specs.Answers.{Fine, AfterColumns};

use hosts::State;
use keys::Bound;
use limits::{ENTRIES_LIMIT, VALUE_MAX};

// Has the range a key, are there few enough entries, and is the sender a host?
pub fn fine(k: State, lo: Bound, hi: Bound, count: usize) -> bool
    ensures { Fine k lo hi count result }
{
    !keys::is_empty(lo, hi) && count < ENTRIES_LIMIT && k.from < k.hosts
}

// Writes down the list's m entries as columns, unless a value is too long or a column too short.
pub fn columns(
    s: &[u8],
    from: usize,
    m: usize,
    ks: &mut [u64],
    ats: &mut [u64],
    ls: &mut [u64],
) -> bool
    ensures { AfterColumns s.now from m result ks.new ats.new ls.new }
{
    if ks.len() < m || ats.len() < m || ls.len() < m {
        return false;
    }
    let mut at = from;
    for i in 0..m {
        let Some((key, part)) = lists::row(s, at) else {
            return false;
        };
        if VALUE_MAX < part.len {
            return false;
        }
        ks[i] = key;
        ats[i] = part.at as u64;
        ls[i] = part.len as u64;
        at = part.at + part.len;
    }
    true
}
