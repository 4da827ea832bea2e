// A value or none, and a key with one, read at a place of a datagram's bytes: the fields that a Set and
// a Reply share. Where the value stands is told, and its bytes stay there. `fields` reads bounds.
#![tactic(auto)]

ghost use Rattle.values.specs.Answers.{ReadValue, ReadKeyed};

use format::{Part, WIDTH};

// A value, or none, and the place behind it.
pub fn value(s: &[u8], at: usize) -> Option<(Option<Part>, usize)>
    ensures { ReadValue s.now at result }
{
    match *s.get(at)? {
        0 => Some((None, at + 1)),
        1 => {
            let part = format::text(s, at + 1)?;
            Some((Some(part), part.at + part.len))
        }
        _ => None,
    }
}

// A key and its value, or none, and the place behind them.
pub fn keyed(s: &[u8], at: usize) -> Option<(u64, Option<Part>, usize)>
    ensures { ReadKeyed s.now at result }
{
    let k = format::number(s, at)?;
    let (v, next) = value(s, at + WIDTH)?;
    Some((k, v, next))
}
