// Messages written into lent bytes, one function a kind: here an Ack and a Get. What is written is the
// definition's encoding (crate `message`), from the front of what is lent on. A message that does not fit,
// or that may not be written, is refused and nothing has changed.
#![tactic(auto)]

ghost use Rattle.message.specs.Message.{message, ack, get};
ghost use Rattle.message.specs.Answers.{AfterWrite};

use format::WIDTH;
use message::Refused;

// The Ack of a message's number.
pub fn ack(n: u64, d: &mut [u8]) -> Result<usize, Refused>
    ensures { AfterWrite (ack n) d.old result d.new }
{
    if d.len() < 1 + WIDTH {
        return Err(Refused::NoRoom);
    }
    writing::byte(1, d, 0);
    writing::number(n, d, 1);
    Ok(1 + WIDTH)
}

pub fn get(n: u64, to: &[u8], key: u64, d: &mut [u8]) -> Result<usize, Refused>
    ensures { AfterWrite (message n to.now (get key)) d.old result d.new }
{
    let at = fronts::begin(n, to, 0, WIDTH, d)?;
    writing::number(key, d, at);
    Ok(at + WIDTH)
}
