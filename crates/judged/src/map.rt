// The map's functions.
use super::code;

#[unsafe(no_mangle)]
pub extern "C" fn tagshards_judged_map_start(
    lows: &mut [u64],
    owners: &mut [u64],
    owner: u64,
) -> u64 {
    code::counted(delegation::start(lows, owners, owner))
}

#[unsafe(no_mangle)]
pub extern "C" fn tagshards_judged_map_owner(
    lows: &[u64],
    owners: &[u64],
    n: usize,
    key: u64,
) -> u64 {
    delegation::owner(lows, owners, n, key)
}

#[unsafe(no_mangle)]
pub extern "C" fn tagshards_judged_map_set(
    lows: &mut [u64],
    owners: &mut [u64],
    n: usize,
    lo_end: bool,
    lo: u64,
    hi_end: bool,
    hi: u64,
    owner: u64,
) -> u64 {
    let low = code::bound(lo_end, lo);
    let high = code::bound(hi_end, hi);
    code::counted(grants::set(lows, owners, n, low, high, owner))
}

#[unsafe(no_mangle)]
pub extern "C" fn tagshards_judged_map_bounds_after(
    lows: &[u64],
    owners: &[u64],
    n: usize,
    lo_end: bool,
    lo: u64,
    hi_end: bool,
    hi: u64,
    owner: u64,
) -> usize {
    let low = code::bound(lo_end, lo);
    let high = code::bound(hi_end, hi);
    bounding::bounds_after(lows, owners, n, low, high, owner)
}

#[unsafe(no_mangle)]
pub extern "C" fn tagshards_judged_map_whole(
    lows: &[u64],
    owners: &[u64],
    n: usize,
    lo_end: bool,
    lo: u64,
    hi_end: bool,
    hi: u64,
    owner: u64,
) -> bool {
    let low = code::bound(lo_end, lo);
    let high = code::bound(hi_end, hi);
    plans::whole(lows, owners, n, low, high, owner)
}
