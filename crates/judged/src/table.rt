// The table's functions.
use super::code;

#[unsafe(no_mangle)]
pub extern "C" fn tagshards_judged_table_start(
    keys: &[u64],
    slots: &mut [u64],
    lens: &[u64],
    values: &[u8],
) -> bool {
    records::start(keys, slots, lens, values)
}

#[unsafe(no_mangle)]
pub extern "C" fn tagshards_judged_table_get_place(
    keys: &[u64],
    slots: &[u64],
    lens: &[u64],
    values: &[u8],
    n: usize,
    key: u64,
) -> u64 {
    code::place(records::get(keys, slots, lens, values, n, key))
}

#[unsafe(no_mangle)]
pub extern "C" fn tagshards_judged_table_get_length(
    keys: &[u64],
    slots: &[u64],
    lens: &[u64],
    values: &[u8],
    n: usize,
    key: u64,
) -> u64 {
    code::length(records::get(keys, slots, lens, values, n, key))
}

#[unsafe(no_mangle)]
pub extern "C" fn tagshards_judged_table_set(
    keys: &mut [u64],
    slots: &mut [u64],
    lens: &mut [u64],
    values: &mut [u8],
    n: usize,
    key: u64,
    value: &[u8],
) -> u64 {
    code::stored(stores::set(keys, slots, lens, values, n, key, value))
}

#[unsafe(no_mangle)]
pub extern "C" fn tagshards_judged_table_delete(
    keys: &mut [u64],
    slots: &mut [u64],
    n: usize,
    key: u64,
) -> usize {
    removals::delete(keys, slots, n, key)
}

#[unsafe(no_mangle)]
pub extern "C" fn tagshards_judged_table_remove(
    keys: &mut [u64],
    slots: &mut [u64],
    n: usize,
    lo_end: bool,
    lo: u64,
    hi_end: bool,
    hi: u64,
) -> usize {
    let low = code::bound(lo_end, lo);
    let high = code::bound(hi_end, hi);
    removals::remove(keys, slots, n, low, high)
}

#[unsafe(no_mangle)]
pub extern "C" fn tagshards_judged_table_count(
    keys: &[u64],
    n: usize,
    lo_end: bool,
    lo: u64,
    hi_end: bool,
    hi: u64,
) -> usize {
    let low = code::bound(lo_end, lo);
    let high = code::bound(hi_end, hi);
    counts::count(keys, n, low, high)
}

#[unsafe(no_mangle)]
pub extern "C" fn tagshards_judged_table_left(
    keys: &[u64],
    n: usize,
    lo_end: bool,
    lo: u64,
    hi_end: bool,
    hi: u64,
    ks: &[u64],
    m: usize,
) -> usize {
    let low = code::bound(lo_end, lo);
    let high = code::bound(hi_end, hi);
    counts::left(keys, n, low, high, ks, m)
}

#[unsafe(no_mangle)]
pub extern "C" fn tagshards_judged_table_pick(
    keys: &[u64],
    slots: &[u64],
    lens: &[u64],
    values: &[u8],
    n: usize,
    lo_end: bool,
    lo: u64,
    hi_end: bool,
    hi: u64,
    to_keys: &mut [u64],
    to_ats: &mut [u64],
    to_lens: &mut [u64],
) -> u64 {
    let low = code::bound(lo_end, lo);
    let high = code::bound(hi_end, hi);
    code::counted(ranges::pick(
        keys, slots, lens, values, n, low, high, to_keys, to_ats, to_lens,
    ))
}

#[unsafe(no_mangle)]
pub extern "C" fn tagshards_judged_table_replace(
    keys: &mut [u64],
    slots: &mut [u64],
    lens: &mut [u64],
    values: &mut [u8],
    n: usize,
    lo_end: bool,
    lo: u64,
    hi_end: bool,
    hi: u64,
    ks: &[u64],
    ats: &[u64],
    ls: &[u64],
    m: usize,
    bytes: &[u8],
) -> u64 {
    let low = code::bound(lo_end, lo);
    let high = code::bound(hi_end, hi);
    code::replaced(entries::replace(
        keys, slots, lens, values, n, low, high, ks, ats, ls, m, bytes,
    ))
}

#[unsafe(no_mangle)]
pub extern "C" fn tagshards_judged_table_valid(
    keys: &[u64],
    slots: &[u64],
    lens: &[u64],
    values: &[u8],
    n: usize,
) -> bool {
    audits::valid(keys, slots, lens, values, n)
}
