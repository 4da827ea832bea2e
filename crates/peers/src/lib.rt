// Addresses to small numbers, in lent memory: `names` has the addresses at a stride of `width` bytes, and
// `lens` how long each is; the first n count. A peer's number never changes. What memory keeps, and what
// each answer says, stands in specs/Names.antt; nothing is asked of a caller. An address is looked for in
// `finding`, a crate of its own since its proofs are the longest.
#![tactic(auto)]

ghost use Rattle.std.specs.Prelude.{◌≡◌, min, ◌*◌, ◌/◌, ◌≤◌, ◌<◌};
ghost use Rattle.peers.specs.Names.{AfterName, AfterAdd};

// Why an address gets no number.
#[derive(Clone, Copy, Debug, PartialEq, Eq)]
pub enum Refused {
    Full,
    TooLong,
}

// Where does the peer's address stand in the names, from one byte up to another? None: there is no such peer.
pub fn name(lens: &[u64], names: &[u8], width: usize, peer: usize) -> Option<(usize, usize)>
    ensures { AfterName lens.now names.now width peer result }
{
    if room(lens.len(), names.len(), width) <= peer {
        return None;
    }
    let len = lens[peer] as usize;
    if width < len {
        return None;
    }
    let from = peer * width;
    Some((from, from + len))
}

// The next number for an address that no peer has.
pub fn add(
    lens: &mut [u64],
    names: &mut [u8],
    width: usize,
    n: usize,
    address: &[u8],
) -> Result<usize, Refused>
    ensures { AfterAdd lens.old names.old width n address.now result lens.new names.new }
{
    if width < address.len() {
        return Err(Refused::TooLong);
    }
    if room(lens.len(), names.len(), width) <= n {
        return Err(Refused::Full);
    }
    lens[n] = address.len() as u64;
    memory::copy(address, names, n * width);
    Ok(n)
}

// How many addresses so many lengths and bytes have room for.
pub fn room(lens: usize, names: usize, width: usize) -> usize
    ensures { (0 < width → result ≡ min lens (names / width)) × (result ≤ lens) × (result * width ≤ names) }
{
    if width == 0 {
        return 0;
    }
    within(lens, names / width)
}

// The smaller of the two.
pub fn within(a: usize, b: usize) -> usize
    ensures { (result ≡ min a b) × (result ≤ a) × (result ≤ b) }
{
    a.min(b)
}
