// The parts of a message written into lent bytes: a byte, a number, a byte string (document 01,
// section 3). Each answers whether it fits there; if not, nothing has changed.
#![tactic(auto)]

ghost use Rattle.std.specs.Prelude.{[], ◌∷◌};
ghost use Rattle.memory.specs.Bytes.{Copied};
ghost use Rattle.format.specs.Number.{digits, width};
ghost use Rattle.format.specs.Format.{counted};

use format::WIDTH;

pub fn byte(b: u8, d: &mut [u8], at: usize) -> bool
    ensures { Copied (b ∷ []) d.old at result d.new }
{
    if d.len() <= at {
        return false;
    }
    d[at] = b;
    true
}

// A number, lowest byte first. It compiles to one store of eight bytes (looked at with `llvm-objdump -dr`
// in the static library of `judged_messages`, where it stands in line).
pub fn number(n: u64, d: &mut [u8], at: usize) -> bool
    ensures { Copied (digits width n) d.old at result d.new }
{
    memory::copy(&n.to_le_bytes(), d, at)
}

// A byte string: its length, then its bytes, which are copied once.
pub fn text(src: &[u8], d: &mut [u8], at: usize) -> bool
    ensures { Copied (counted src.now) d.old at result d.new }
{
    if d.len() < at || d.len() - at < WIDTH {
        return false;
    }
    let from = at + WIDTH;
    if d.len() - from < src.len() {
        return false;
    }
    number(src.len() as u64, d, at);
    memory::copy(src, d, from)
}
