// A Set and a Reply written into lent bytes: a key with a value, or none. The value is copied once, from
// where it stands to its place in the message.
#![tactic(auto)]

ghost use Rattle.format.specs.Format.{number, maybe, pair};
ghost use Rattle.fronts.specs.Front.{AfterFields};
ghost use Rattle.message.specs.Given.{given};
ghost use Rattle.message.specs.Message.{message, set, reply};
ghost use Rattle.message.specs.Table.{value};
ghost use Rattle.message.specs.Answers.{AfterWrite};

use format::WIDTH;
use message::Refused;

pub fn set(n: u64, to: &[u8], key: u64, v: Option<&[u8]>, d: &mut [u8]) -> Result<usize, Refused>
    ensures { AfterWrite (message n to.now (set key (given v.entry))) d.old result d.new }
{
    keyed(1, n, to, key, v, d)
}

pub fn reply(n: u64, to: &[u8], key: u64, v: Option<&[u8]>, d: &mut [u8]) -> Result<usize, Refused>
    ensures { AfterWrite (message n to.now (reply key (given v.entry))) d.old result d.new }
{
    keyed(2, n, to, key, v, d)
}

// A body of a key and a value, or none.
fn keyed(
    kind: u8,
    n: u64,
    to: &[u8],
    key: u64,
    v: Option<&[u8]>,
    d: &mut [u8],
) -> Result<usize, Refused>
    ensures { AfterFields (pair number (maybe value)) (key, given v.entry) n to.now kind d.old result d.new }
{
    let more = WIDTH + lengths::optional_length(v);
    let at = fronts::begin(n, to, kind, more, d)?;
    writing::number(key, d, at);
    options::optional(v, d, at + WIDTH);
    Ok(at + more)
}
