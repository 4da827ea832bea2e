// A Redirect written into lent bytes: who asked for a key of another host is told that host's address.
#![tactic(auto)]

ghost use Rattle.message.specs.Message.{message, redirect};
ghost use Rattle.message.specs.Answers.{AfterWrite};

use format::WIDTH;
use limits::BYTES_MAX;
use message::Refused;

pub fn redirect(n: u64, to: &[u8], key: u64, address: &[u8], d: &mut [u8]) -> Result<usize, Refused>
    ensures { AfterWrite (message n to.now (redirect key address.now)) d.old result d.new }
{
    if BYTES_MAX <= address.len() {
        return Err(Refused::Invalid);
    }
    let more = WIDTH + (WIDTH + address.len());
    let at = fronts::begin(n, to, 3, more, d)?;
    writing::number(key, d, at);
    writing::text(address, d, at + WIDTH);
    Ok(at + more)
}
