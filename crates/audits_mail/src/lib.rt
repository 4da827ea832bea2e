// Are the datagrams that wait messages? For audits, not for steps: each of them is read.
#![tactic(auto)]

ghost use Rattle.std.specs.Prelude.{◌+◌, ◌*◌, ◌≤◌, ◌<◌, length};
ghost use Rattle.delivery.specs.Memory.{capacity};
ghost use Rattle.audits_mail.specs.Answers.{Valid};
ghost use Rattle.audits_mail.specs.Inner.{Fine, Addressed};

use delivery::WORDS;
use message::Parsed;

// Is each datagram that waits a message with its place's number to the address of its place's peer?
pub fn valid(
    lens: &[u64],
    names: &[u8],
    places: &[u64],
    mail: &[u8],
    width: usize,
    size: usize,
) -> bool
    ensures { Valid lens.now names.now places.now mail.now width size result }
{
    if size == 0 || mail.len() / size < places.len() / WORDS {
        return false;
    }
    for p in 0..places.len() / WORDS {
        if !fine(lens, names, places, mail, width, size, p) {
            return false;
        }
    }
    true
}

// Is place p free, or its datagram such a message?
fn fine(
    lens: &[u64],
    names: &[u8],
    places: &[u64],
    mail: &[u8],
    width: usize,
    size: usize,
    p: usize,
) -> bool
    requires { (p < capacity places.now) × (p * size + size ≤ length mail.now) }
    ensures { Fine lens.now names.now places.now mail.now width size p result }
{
    let mark = places[p * WORDS];
    if mark == 0 {
        return true;
    }
    let number = places[p * WORDS + 1];
    let len = places[p * WORDS + 2] as usize;
    if size < len {
        return false;
    }
    let Some((a, b)) = peers::name(lens, names, width, (mark - 1) as usize) else {
        return false;
    };
    let from = p * size;
    let to = from + len;
    addressed(&mail[from..to], number, &names[a..b])
}

// Are the bytes a message with that number to that address?
fn addressed(s: &[u8], number: u64, address: &[u8]) -> bool
    ensures { Addressed number address.now s.now result }
{
    match parsing::parse(s) {
        Some(Parsed::Message(n, to, _)) => {
            n == number && memory::same(&s[to.at..to.at + to.len], address)
        }
        Some(Parsed::Ack(_)) => false,
        None => false,
    }
}
