// The fields of a message that may be missing, written into lent bytes: a bound, which is a key or none
// for end, and a value or none. Each answers whether it fits there; if not, nothing has changed. How many
// bytes they take is told by `lengths`.
#![tactic(auto)]

ghost use Rattle.std.proofs.Math.Option.{some};
ghost use Rattle.memory.specs.Bytes.{Copied};
ghost use Rattle.keys.specs.declared.Bound.TheVariants.{Key};
ghost use Rattle.format.specs.Format.{number, maybe, encode, Good};
ghost use Rattle.message.specs.Table.{value, key_of};
ghost use Rattle.message.specs.Given.{given};

use format::WIDTH;
use keys::Bound;

// A bound: its key, or none for end. A bound's key is always a number.
pub fn bound(b: Bound, d: &mut [u8], at: usize) -> bool
    ensures { Copied (encode (maybe number) (key_of b)) d.old at result d.new × Good (maybe number) (key_of b) }
{
    match b {
        Bound::Key(k) => key(k, d, at),
        Bound::End => writing::byte(0, d, at),
    }
}

fn key(k: u64, d: &mut [u8], at: usize) -> bool
    ensures { Copied (encode (maybe number) (key_of (Key k))) d.old at result d.new }
{
    if d.len() < at || d.len() - at < 1 + WIDTH {
        return false;
    }
    writing::byte(1, d, at);
    writing::number(k, d, at + 1)
}

// A value that is there, or none.
pub fn optional(v: Option<&[u8]>, d: &mut [u8], at: usize) -> bool
    ensures { Copied (encode (maybe value) (given v.entry)) d.old at result d.new }
{
    match v {
        Some(bytes) => there(bytes, d, at),
        None => writing::byte(0, d, at),
    }
}

fn there(v: &[u8], d: &mut [u8], at: usize) -> bool
    ensures { Copied (encode (maybe value) (some v.now)) d.old at result d.new }
{
    if d.len() < at || d.len() - at < 1 + WIDTH || d.len() - at - (1 + WIDTH) < v.len() {
        return false;
    }
    writing::byte(1, d, at);
    writing::text(v, d, at + 1)
}
