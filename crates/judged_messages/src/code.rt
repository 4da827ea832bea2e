// Bounds from numbers, and the answers of writers as numbers. A refusal is one of the largest numbers, which
// no length comes near.
// They are functions and no `From`: the answers and u64 are types of other crates.
use keys::Bound;
use message::Refused;

const NO_ROOM: u64 = u64::MAX;

const INVALID: u64 = u64::MAX - 1;

pub fn bound(is_end: bool, key: u64) -> Bound {
    if is_end {
        return Bound::End;
    }
    Bound::Key(key)
}

pub fn written(r: Result<usize, Refused>) -> u64 {
    match r {
        Ok(n) => n as u64,
        Err(Refused::NoRoom) => NO_ROOM,
        Err(Refused::Invalid) => INVALID,
    }
}
