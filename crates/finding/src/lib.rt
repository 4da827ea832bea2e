// Which peer has that address? The names that `peers` keeps are looked through, from the front or with a
// place to look at first, and addresses that differ are told apart early. Nothing is asked of a caller.
#![tactic(auto)]

ghost use Rattle.std.specs.Prelude.{◌≡◌, true, ◌+◌, ◌*◌, ◌≤◌, length};
ghost use Rattle.peers.specs.Names.{Standing, AfterFind};

use format::WIDTH;

// Which peer has that address? The peers are looked through from the front.
pub fn find(lens: &[u64], names: &[u8], width: usize, n: usize, address: &[u8]) -> Option<usize>
    ensures { AfterFind lens.now names.now width n address.now result }
{
    let end = peers::within(n, peers::room(lens.len(), names.len(), width));
    for i in 0..end {
        let len = lens[i] as usize;
        if is_at(names, width, i, len, address) {
            return Some(i);
        }
    }
    None
}

// Which peer has that address? The place of the hint, which may be any number, is looked at first; where the
// address does not stand there, the peers are looked through.
pub fn find_near(
    lens: &[u64],
    names: &[u8],
    width: usize,
    n: usize,
    address: &[u8],
    hint: usize,
) -> Option<usize>
    ensures { AfterFind lens.now names.now width n address.now result }
{
    let end = peers::within(n, peers::room(lens.len(), names.len(), width));
    if end <= hint {
        return find(lens, names, width, n, address);
    }
    let long = lens[hint] as usize;
    if is_at(names, width, hint, long, address) {
        return Some(hint);
    }
    find(lens, names, width, n, address)
}

// Does that address stand at place i, where it would be so long?
fn is_at(names: &[u8], width: usize, i: usize, len: usize, address: &[u8]) -> bool
    requires { i * width + width ≤ length names.now }
    ensures { Standing names.now width i len address.now result }
{
    if width < len {
        return false;
    }
    let from = i * width;
    let to = from + len;
    if apart(&names[from..to], address) {
        return false;
    }
    memory::same(&names[from..to], address)
}

// Do they differ in their last eight bytes? That is one comparison, and in most addresses those differ that
// are not the same.
fn apart(a: &[u8], b: &[u8]) -> bool
    ensures { result ≡ true → a.now ≡ b.now → ⊥ }
{
    if a.len() < WIDTH || b.len() < WIDTH {
        return false;
    }
    let Some(x) = format::number(a, a.len() - WIDTH) else {
        return false;
    };
    let Some(y) = format::number(b, b.len() - WIDTH) else {
        return false;
    };
    x != y
}
