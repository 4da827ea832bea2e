// A Delegate written into lent bytes: a range and its entries, handed in as columns (specs/Columns.antt).
// Each value is copied once, from where it stands to its place in the message.
#![tactic(auto)]

ghost use Rattle.std.specs.Prelude.{◌≡◌, ◌+◌, ◌≤◌, ◌<◌, length, get_or};
ghost use Rattle.memory.specs.Bytes.{placed};
ghost use Rattle.format.specs.Number.{width};
ghost use Rattle.format.specs.Format.{encode, rows, listing};
ghost use Rattle.format.specs.Place.{row};
ghost use Rattle.message.specs.Message.{message, delegate};
ghost use Rattle.sizes.specs.Sizes.{sizes};
ghost use Rattle.delegating.specs.Columns.{Columns, entered, AfterDelegate};

use format::WIDTH;
use keys::Bound;
use message::Refused;

pub fn delegate(
    n: u64,
    to: &[u8],
    lo: Bound,
    hi: Bound,
    keys: &[u64],
    ats: &[u64],
    lens: &[u64],
    m: usize,
    bytes: &[u8],
    d: &mut [u8],
) -> Result<usize, Refused>
    ensures { AfterDelegate keys.now ats.now lens.now bytes.now m (message n to.now (delegate lo hi (entered keys.now ats.now lens.now bytes.now 0 m))) d.old result d.new }
{
    if !columns::rises(keys, m) {
        return Err(Refused::Invalid);
    }
    if !strings::inside(ats, lens, m, bytes.len()) {
        return Err(Refused::Invalid);
    }
    let Some(total) = sizes::size_of(lens, m) else {
        return Err(Refused::Invalid);
    };
    let low = lengths::bound_length(lo);
    let both = low + lengths::bound_length(hi);
    let more = both + total;
    let at = fronts::begin(n, to, 5, more, d)?;
    options::bound(lo, d, at);
    options::bound(hi, d, at + low);
    list(keys, ats, lens, m, bytes, d, at + both);
    Ok(at + more)
}

// The list: how many entries there are, then each.
fn list(keys: &[u64], ats: &[u64], lens: &[u64], m: usize, bytes: &[u8], d: &mut [u8], at: usize)
    requires { Columns keys.now ats.now lens.now bytes.now m × (at + (width + sizes lens.now 0 m) ≤ length d.old) }
    ensures { d.new ≡ placed d.old at (listing (entered keys.now ats.now lens.now bytes.now 0 m)) }
{
    writing::number(m as u64, d, at);
    entries(keys, ats, lens, m, bytes, d, at + WIDTH);
}

fn entries(
    keys: &[u64],
    ats: &[u64],
    lens: &[u64],
    m: usize,
    bytes: &[u8],
    d: &mut [u8],
    from: usize,
)
    requires { Columns keys.now ats.now lens.now bytes.now m × (from + sizes lens.now 0 m ≤ length d.old) }
    ensures { d.new ≡ placed d.old from (rows (entered keys.now ats.now lens.now bytes.now 0 m)) }
{
    let mut at = from;
    for i in 0..m {
        let begin = ats[i] as usize;
        let len = lens[i] as usize;
        let end = begin + len;
        entry(keys[i], &bytes[begin..end], d, at);
        at += WIDTH + WIDTH + len;
    }
}

fn entry(key: u64, value: &[u8], d: &mut [u8], at: usize)
    requires { at + (width + width + length value.now) ≤ length d.old }
    ensures { d.new ≡ placed d.old at (encode row (key, value.now)) }
{
    writing::number(key, d, at);
    writing::text(value, d, at + WIDTH);
}
