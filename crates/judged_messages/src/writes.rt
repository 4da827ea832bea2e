// The writers, one a kind: the length of what was written, or a refusal. A value comes as two arguments, as
// C calls them: is it there, and its bytes.
use super::code;

#[unsafe(no_mangle)]
pub extern "C" fn tagshards_judged_ack(n: u64, d: &mut [u8]) -> u64 {
    code::written(composing::ack(n, d))
}

#[unsafe(no_mangle)]
pub extern "C" fn tagshards_judged_get(n: u64, to: &[u8], key: u64, d: &mut [u8]) -> u64 {
    code::written(composing::get(n, to, key, d))
}

#[unsafe(no_mangle)]
pub extern "C" fn tagshards_judged_set(
    n: u64,
    to: &[u8],
    key: u64,
    some: bool,
    v: &[u8],
    d: &mut [u8],
) -> u64 {
    code::written(answering::set(n, to, key, some.then_some(v), d))
}

#[unsafe(no_mangle)]
pub extern "C" fn tagshards_judged_reply(
    n: u64,
    to: &[u8],
    key: u64,
    some: bool,
    v: &[u8],
    d: &mut [u8],
) -> u64 {
    code::written(answering::reply(n, to, key, some.then_some(v), d))
}

#[unsafe(no_mangle)]
pub extern "C" fn tagshards_judged_redirect(
    n: u64,
    to: &[u8],
    key: u64,
    address: &[u8],
    d: &mut [u8],
) -> u64 {
    code::written(directing::redirect(n, to, key, address, d))
}

#[unsafe(no_mangle)]
pub extern "C" fn tagshards_judged_shard(
    n: u64,
    to: &[u8],
    lo_end: bool,
    lo: u64,
    hi_end: bool,
    hi: u64,
    address: &[u8],
    d: &mut [u8],
) -> u64 {
    let low = code::bound(lo_end, lo);
    let high = code::bound(hi_end, hi);
    code::written(asking::shard(n, to, low, high, address, d))
}

#[unsafe(no_mangle)]
pub extern "C" fn tagshards_judged_delegate(
    n: u64,
    to: &[u8],
    lo_end: bool,
    lo: u64,
    hi_end: bool,
    hi: u64,
    keys: &[u64],
    ats: &[u64],
    lens: &[u64],
    m: usize,
    bytes: &[u8],
    d: &mut [u8],
) -> u64 {
    let low = code::bound(lo_end, lo);
    let high = code::bound(hi_end, hi);
    code::written(delegating::delegate(n, to, low, high, keys, ats, lens, m, bytes, d))
}
