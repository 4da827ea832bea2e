// A bound, and the two of a range, read at a place of a datagram's bytes: the fields that a Shard and a
// Delegate share. `values` reads those of a Set and a Reply.
#![tactic(auto)]

ghost use Rattle.fields.specs.Answers.{ReadBound, ReadRange};

use format::WIDTH;
use keys::Bound;

// A bound: a key, or none for end. And the place behind it.
pub fn bound(s: &[u8], at: usize) -> Option<(Bound, usize)>
    ensures { ReadBound s.now at result }
{
    match *s.get(at)? {
        0 => Some((Bound::End, at + 1)),
        1 => {
            let k = format::number(s, at + 1)?;
            Some((Bound::Key(k), at + 1 + WIDTH))
        }
        _ => None,
    }
}

// The bounds lo and hi, and the place behind them.
pub fn range(s: &[u8], at: usize) -> Option<(Bound, Bound, usize)>
    ensures { ReadRange s.now at result }
{
    let (lo, mid) = bound(s, at)?;
    let (hi, next) = bound(s, mid)?;
    Some((lo, hi, next))
}
