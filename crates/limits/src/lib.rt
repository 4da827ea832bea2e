// The numbers that the documents name, as far as code uses them; specs/Limits.antt has them for
// definitions, and a proof that uses both fails if they differ. No other code, definition or proof of
// the product has their digits; the judges have them from the documents.
#![tactic(auto)]

// A value's bytes: document 01, section 5, drops "a value of 1,024 bytes or more".
pub const VALUE_MAX: usize = 1023;

// The bytes of a list of entries at most, and an address has fewer: document 01, section 3.
pub const BYTES_MAX: usize = 1048576;

// The largest number of a message: document 01, section 4, sends nothing past it.
pub const NUMBER_MAX: u64 = 18446744073709551615;

// A transfer has fewer entries: document 01, section 5, drops one of 62 or more.
pub const ENTRIES_LIMIT: usize = 62;

// A datagram has room for at least so many bytes: document 01, section 6.
pub const DATAGRAM_MIN: usize = 65536;

// The bytes of the largest Delegate that a host sends, but for its destination: document 01, section 3, has
// 61 values of 1,023 bytes in it.
pub const DELEGATE_MAX: usize = 63423;

// The bytes of a Redirect, but for its two addresses: document 01, section 3.
pub const REDIRECT_MAX: usize = 34;

// The count of transfers stays below this: document 01, section 5.
pub const TRANSFERS_LIMIT: u64 = 9223372036854775807;

// Retransmission acts on every so many of its turns: document 01, section 5.
pub const RESEND_EVERY: u64 = 100000000;

// What was lent is too short for what it is to hold.
#[derive(Clone, Copy, Debug, PartialEq, Eq)]
pub struct NoRoom;
