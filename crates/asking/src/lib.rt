// A Shard written into lent bytes: what a client asks with, that a range be given to another host. A host
// never sends one.
#![tactic(auto)]

ghost use Rattle.message.specs.Message.{message, shard};
ghost use Rattle.message.specs.Answers.{AfterWrite};

use format::WIDTH;
use keys::Bound;
use limits::BYTES_MAX;
use message::Refused;

pub fn shard(
    n: u64,
    to: &[u8],
    lo: Bound,
    hi: Bound,
    address: &[u8],
    d: &mut [u8],
) -> Result<usize, Refused>
    ensures { AfterWrite (message n to.now (shard lo hi address.now)) d.old result d.new }
{
    if BYTES_MAX <= address.len() {
        return Err(Refused::Invalid);
    }
    let low = lengths::bound_length(lo);
    let both = low + lengths::bound_length(hi);
    let more = both + (WIDTH + address.len());
    let at = fronts::begin(n, to, 4, more, d)?;
    options::bound(lo, d, at);
    options::bound(hi, d, at + low);
    writing::text(address, d, at + both);
    Ok(at + more)
}
