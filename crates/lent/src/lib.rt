// The memory that a host is lent, by part: the slices that only make sense together travel together. What each part
// keeps is told where it is used (`delegation`, `records`, `peers`, `delivery`). C is a column of numbers and B a string
// of bytes, lent to be read (`&[u64]`) or to be written (`&mut [u64]`). A function that writes into a part leaves the
// part's slices where they are (specs/Parts.antt), so whoever lent them sees what was written.
#![tactic(auto)]

ghost use Rattle.std.specs.Prelude.{◌≡◌};

// The map from key to owner: where each range begins, and whose it is.
#[derive(Clone, Copy, Drop)]
pub struct Map<C> {
    pub lows: C,
    pub owners: C,
}

// Which keys there are, in rising order, and in which slot the value of each stands.
#[derive(Clone, Copy, Drop)]
pub struct Index<C> {
    pub keys: C,
    pub slots: C,
}

// Byte strings, each at a place of its own: how long each is, and the bytes. Values by slot, and addresses by peer.
#[derive(Clone, Copy, Drop)]
pub struct Strings<C, B> {
    pub lens: C,
    pub bytes: B,
}

// What is known of each peer, and which messages wait.
#[derive(Clone, Copy, Drop)]
pub struct Post<C> {
    pub counts: C,
    pub places: C,
}

impl Map<&mut [u64]> {
    // The map to be read.
    pub fn view(&self) -> Map<&[u64]>
        ensures lows { result.lows.now ≡ self.now.lows.now }
        ensures owners { result.owners.now ≡ self.now.owners.now }
    {
        Map {
            lows: self.lows,
            owners: self.owners,
        }
    }
}

impl Index<&mut [u64]> {
    // The index to be read.
    pub fn view(&self) -> Index<&[u64]>
        ensures keys { result.keys.now ≡ self.now.keys.now }
        ensures slots { result.slots.now ≡ self.now.slots.now }
    {
        Index {
            keys: self.keys,
            slots: self.slots,
        }
    }
}

impl Strings<&mut [u64], &mut [u8]> {
    // The strings to be read.
    pub fn view(&self) -> Strings<&[u64], &[u8]>
        ensures lens { result.lens.now ≡ self.now.lens.now }
        ensures bytes { result.bytes.now ≡ self.now.bytes.now }
    {
        Strings {
            lens: self.lens,
            bytes: self.bytes,
        }
    }
}

impl Post<&mut [u64]> {
    // The post to be read.
    pub fn view(&self) -> Post<&[u64]>
        ensures counts { result.counts.now ≡ self.now.counts.now }
        ensures places { result.places.now ≡ self.now.places.now }
    {
        Post {
            counts: self.counts,
            places: self.places,
        }
    }
}
