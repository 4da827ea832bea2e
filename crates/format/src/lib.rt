// The grammar of messages, read: a number and a byte string at a place of lent bytes (document 01,
// section 3). The grammar itself is specs/Format.antt. A reader answers by value where a part stands and
// how long it is; the bytes stay where they are. Whatever the bytes are, each answer is exact: what is
// found is written there, and what is missing is written in no way.
#![tactic(auto)]

ghost use Rattle.format.specs.Number.{numbers};
ghost use Rattle.format.specs.Answers.{ReadNumber, ReadText};

// The bytes of a number.
pub const WIDTH: usize = 8;

// Where a part of the bytes stands, and how long it is.
#[derive(Clone, Copy)]
pub struct Part {
    pub at: usize,
    pub len: usize,
}

// The number at a place. It compiles to one load of eight bytes (looked at with `llvm-objdump -dr` in the
// static library of `judged_messages`, where it stands in line).
pub fn number(s: &[u8], at: usize) -> Option<u64>
    ensures { ReadNumber s.now at result }
{
    let bytes = s.get(at..)?.first_chunk::<WIDTH>()?;
    Some(u64::from_le_bytes(*bytes))
}

// A byte string of any length.
pub fn text(s: &[u8], at: usize) -> Option<Part>
    ensures { ReadText numbers s.now at result }
{
    let n = number(s, at)?;
    let from = at + WIDTH;
    let len = n as usize;
    if s.len() - from < len {
        return None;
    }
    Some(Part { at: from, len })
}

// A byte string that is shorter than the limit.
pub fn short_text(s: &[u8], at: usize, limit: usize) -> Option<Part>
    ensures { ReadText limit s.now at result }
{
    let part = text(s, at)?;
    if limit <= part.len {
        return None;
    }
    Some(part)
}
