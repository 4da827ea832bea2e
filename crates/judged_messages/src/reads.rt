// The readers: a datagram, and an entry of a list at a place of it.
use super::view;

#[unsafe(no_mangle)]
pub extern "C" fn tagshards_judged_parse(s: &[u8], which: u64) -> u64 {
    view::word(parsing::parse(s), which)
}

#[unsafe(no_mangle)]
pub extern "C" fn tagshards_judged_row(s: &[u8], at: usize, which: u64) -> u64 {
    view::row_word(lists::row(s, at), which)
}
