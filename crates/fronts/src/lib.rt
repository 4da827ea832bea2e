// The front of a message, written into lent bytes. A message is refused before anything is written, or
// written whole.
#![tactic(auto)]

ghost use Rattle.std.specs.Prelude.{◌≡◌, ℕ, length};
ghost use Rattle.fronts.specs.Front.{AfterStart, front};

use format::WIDTH;
use limits::BYTES_MAX;
use message::Refused;

// The front of a message whose fields take `more` bytes: where those go, or why there is no message.
// The kind is the byte of document 01, section 3, and stays a number: a type of the six kinds would ask more of callers.
pub fn begin(n: u64, to: &[u8], kind: u8, more: usize, d: &mut [u8]) -> Result<usize, Refused>
    ensures { AfterStart n to.now kind more d.old result d.new }
{
    if BYTES_MAX <= to.len() {
        return Err(Refused::Invalid);
    }
    let last = 1 + WIDTH + WIDTH + to.len();
    let head = last + 1;
    if d.len() < head || d.len() - head < more {
        return Err(Refused::NoRoom);
    }
    writing::byte(0, d, 0);
    writing::number(n, d, 1);
    writing::text(to, d, 1 + WIDTH);
    writing::byte(kind, d, last);
    Ok(head)
}

// The bytes that the front of a message to that destination takes, whatever its number and kind. What
// the fields take is told by the functions of `lengths`, by `sizes::size_of`, and is a number's width for
// a key; together that is the message's length.
pub fn front_length(to: &[u8]) -> usize
    ensures { (n t : ℕ) → result ≡ length (front n to.now t) }
{
    1 + WIDTH + WIDTH + to.len() + 1
}
