// How many bytes the fields of a message that may be missing take, told before they are written: a
// writer begins only once it knows that the whole message fits. `options` writes these fields.
#![tactic(auto)]

ghost use Rattle.std.specs.Prelude.{◌≡◌, ◌+◌, ◌≤◌, [], length, unwrap_or, option_copied};
ghost use Rattle.format.specs.Number.{width};
ghost use Rattle.format.specs.Format.{number, maybe, encode};
ghost use Rattle.message.specs.Table.{value, key_of};
ghost use Rattle.message.specs.Given.{given};

use format::WIDTH;
use keys::Bound;

// The bytes that a bound takes: a key, or none for end.
pub fn bound_length(b: Bound) -> usize
    ensures { (result ≡ length (encode (maybe number) (key_of b))) × (result ≤ 1 + width) }
{
    match b {
        Bound::Key(_) => 1 + WIDTH,
        Bound::End => 1,
    }
}

// The bytes that a value takes that is there, or none.
pub fn optional_length(v: Option<&[u8]>) -> usize
    ensures { (result ≡ length (encode (maybe value) (given v.entry))) × (result ≤ 1 + width + length (unwrap_or (option_copied v.entry) [])) }
{
    match v {
        Some(bytes) => 1 + WIDTH + bytes.len(),
        None => 1,
    }
}
