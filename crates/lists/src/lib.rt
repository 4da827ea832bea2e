// A list of entries, read: how many there are, then a key and a value for each, with keys that rise strictly.
#![tactic(auto)]

ghost use Rattle.std.specs.Prelude.{◌≡◌, true, false, ◌<◌, ◌≤◌, length};
ghost use Rattle.lists.specs.Answers.{ReadRow, ReadRows, ReadList, lowest};

use format::{Part, WIDTH};

// The list at a place, if it takes at most so many bytes: how many entries it has, and the place behind it. The
// first entry stands behind the count.
pub fn list(s: &[u8], at: usize, limit: usize) -> Option<(u64, usize)>
    ensures { ReadList limit s.now at result }
{
    let count = format::number(s, at)?;
    let next = rows(s, at + WIDTH, count)?;
    if limit < next - at {
        return None;
    }
    Some((count, next))
}

// So many entries: the place behind them. Each takes 16 bytes at least, so a count that lies costs no more turns than
// the bytes have room for entries.
fn rows(s: &[u8], from: usize, count: u64) -> Option<usize>
    requires { from ≤ length s.now }
    ensures { ReadRows s.now from count result }
{
    let mut at = from;
    let mut last: Option<u64> = None;
    for _i in 0..count {
        let (key, part) = row(s, at)?;
        if !rises(last, key) {
            return None;
        }
        at = part.at + part.len;
        last = Some(key);
    }
    Some(at)
}

// The entry at a place: its key, and where its value stands.
pub fn row(s: &[u8], at: usize) -> Option<(u64, Part)>
    ensures { ReadRow s.now at result }
{
    let key = format::number(s, at)?;
    let part = format::text(s, at + WIDTH)?;
    Some((key, part))
}

// May the key come next? The first may be any; a later one must be above the last.
fn rises(last: Option<u64>, key: u64) -> bool
    ensures { (result ≡ true → lowest last ≤ key) × (result ≡ false → key < lowest last) }
{
    match last {
        None => true,
        Some(last) => last < key,
    }
}
