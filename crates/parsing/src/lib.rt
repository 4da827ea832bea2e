// Messages read from the bytes of a datagram (document 01, section 3). `parse` answers a view by value and
// copies nothing. Its work is bounded by the datagram's length, whatever counts and lengths the bytes
// claim: each byte is looked at once, by the reader of the part that it stands in.
#![tactic(auto)]

ghost use Rattle.std.specs.Prelude.{◌≡◌, ◌<◌, length, get_or};
ghost use Rattle.message.specs.Answers.{AfterParse};

use format::WIDTH;
use limits::BYTES_MAX;
use message::Parsed;

// The message that the datagram is.
pub fn parse(s: &[u8]) -> Option<Parsed>
    ensures { AfterParse s.now result }
{
    match *s.first()? {
        0 => message(s),
        1 => ack(s),
        _ => None,
    }
}

fn message(s: &[u8]) -> Option<Parsed>
    requires { (0 < length s.now) × (get_or s.now 0 0 ≡ 0) }
    ensures { AfterParse s.now result }
{
    let n = format::number(s, 1)?;
    let address = format::short_text(s, 1 + WIDTH, BYTES_MAX)?;
    let (b, next) = bodies::read(s, address.at + address.len)?;
    if next < s.len() {
        return None;
    }
    Some(Parsed::Message(n, address, b))
}

fn ack(s: &[u8]) -> Option<Parsed>
    requires { (0 < length s.now) × (get_or s.now 0 0 ≡ 1) }
    ensures { AfterParse s.now result }
{
    let n = format::number(s, 1)?;
    if 1 + WIDTH < s.len() {
        return None;
    }
    Some(Parsed::Ack(n))
}
