// Answers as numbers. A refusal is one of the largest numbers, which no count and no place comes near.
// They are functions and no `From`: the answers and u64 are types of other crates.
use keys::Bound;
use limits::NoRoom;

// There is no room, the table is full, or the key has no value.
const NOTHING: u64 = u64::MAX;

const TOO_LONG: u64 = u64::MAX - 1;

const MALFORMED: u64 = u64::MAX - 2;

pub fn bound(is_end: bool, key: u64) -> Bound {
    if is_end { Bound::End } else { Bound::Key(key) }
}

// How many there are, or no room.
pub fn counted(r: Result<usize, NoRoom>) -> u64 {
    match r {
        Ok(n) => n as u64,
        Err(NoRoom) => NOTHING,
    }
}

pub fn stored(r: Result<usize, stores::Refused>) -> u64 {
    match r {
        Ok(n) => n as u64,
        Err(stores::Refused::Full) => NOTHING,
        Err(stores::Refused::TooLong) => TOO_LONG,
    }
}

pub fn replaced(r: Result<usize, entries::Refused>) -> u64 {
    match r {
        Ok(n) => n as u64,
        Err(entries::Refused::Full) => NOTHING,
        Err(entries::Refused::TooLong) => TOO_LONG,
        Err(entries::Refused::Malformed) => MALFORMED,
    }
}

// Where a value stands, and its length: two questions, since one number is answered.
pub fn place(r: Option<(usize, usize)>) -> u64 {
    match r {
        Some((at, _)) => at as u64,
        None => NOTHING,
    }
}

pub fn length(r: Option<(usize, usize)>) -> u64 {
    match r {
        Some((_, len)) => len as u64,
        None => NOTHING,
    }
}
