// A view as twelve numbers, one asked for at a time, since a call answers one number:
//
//    0  the kind: a body's byte, 16 for an Ack, 17 for what is no message
//    1  the number
//    2  where the destination stands    3  its length
//    4  the key                         5  is there a value
//    6  where the value, the address or the first entry stands
//    7  the length of the value or address, or how many entries there are
//    8  is the lower bound end          9  its key
//   10  is the upper bound end         11  its key
//
// What a kind does not have is 0.
use format::Part;
use keys::Bound;
use message::{BodyView, Parsed};

const ACK: u64 = 16;

const INVALID: u64 = 17;

pub fn word(p: Option<Parsed>, which: u64) -> u64 {
    match p {
        Some(Parsed::Message(n, to, b)) => in_message(n, to, b, which),
        Some(Parsed::Ack(n)) => bare(ACK, n, which),
        None => bare(INVALID, 0, which),
    }
}

fn in_message(n: u64, to: Part, b: BodyView, which: u64) -> u64 {
    match which {
        1 => n,
        2 => to.at as u64,
        3 => to.len as u64,
        _ => in_body(b, which),
    }
}

fn bare(kind: u64, n: u64, which: u64) -> u64 {
    match which {
        0 => kind,
        1 => n,
        _ => 0,
    }
}

fn in_body(b: BodyView, which: u64) -> u64 {
    match b {
        BodyView::Get(k) => keyed(0, k, 0, 0, 0, which),
        BodyView::Set(k, v) => valued(1, k, v, which),
        BodyView::Reply(k, v) => valued(2, k, v, which),
        BodyView::Redirect(k, a) => keyed(3, k, 0, a.at, a.len, which),
        BodyView::Shard(lo, hi, a) => ranged(4, lo, hi, a.at, a.len as u64, which),
        BodyView::Delegate(lo, hi, l) => ranged(5, lo, hi, l.at, l.count, which),
    }
}

fn valued(kind: u64, key: u64, v: Option<Part>, which: u64) -> u64 {
    match v {
        None => keyed(kind, key, 0, 0, 0, which),
        Some(p) => keyed(kind, key, 1, p.at, p.len, which),
    }
}

fn keyed(kind: u64, key: u64, some: u64, at: usize, len: usize, which: u64) -> u64 {
    match which {
        0 => kind,
        4 => key,
        5 => some,
        6 => at as u64,
        7 => len as u64,
        _ => 0,
    }
}

fn ranged(kind: u64, lo: Bound, hi: Bound, at: usize, len: u64, which: u64) -> u64 {
    match which {
        0 => kind,
        6 => at as u64,
        7 => len,
        8 => is_end(lo),
        9 => key_of(lo),
        10 => is_end(hi),
        11 => key_of(hi),
        _ => 0,
    }
}

fn is_end(b: Bound) -> u64 {
    match b {
        Bound::Key(_) => 0,
        Bound::End => 1,
    }
}

fn key_of(b: Bound) -> u64 {
    match b {
        Bound::Key(k) => k,
        Bound::End => 0,
    }
}

// An entry of a list as four numbers: is it there, its key, where its value stands, and the value's length.
pub fn row_word(r: Option<(u64, Part)>, which: u64) -> u64 {
    match r {
        Some((key, p)) => in_row(key, p, which),
        None => 0,
    }
}

fn in_row(key: u64, p: Part, which: u64) -> u64 {
    match which {
        0 => 1,
        1 => key,
        2 => p.at as u64,
        3 => p.len as u64,
        _ => 0,
    }
}
