// The messages of document 01, section 3: what they are, how they are written, and the views that stand
// for them in code. The definitions are specs/Message.antt and specs/Table.antt, the laws that callers go
// by proofs/Laws.antt. A view is a value: the kind, the numbers, and where each string stands in the
// datagram's bytes, which stay where they are.
#![tactic(auto)]

use format::Part;
use keys::Bound;

// A list of entries: where the first of them stands, and how many there are.
#[derive(Clone, Copy)]
pub struct ListView {
    pub at: usize,
    pub count: u64,
}

// A body. The value of a Set or a Reply is where its bytes stand, if there is one.
#[derive(Clone, Copy)]
pub enum BodyView {
    Get(u64),
    Set(u64, Option<Part>),
    Reply(u64, Option<Part>),
    Redirect(u64, Part),
    Shard(Bound, Bound, Part),
    Delegate(Bound, Bound, ListView),
}

// A message with its number, destination and body, or an Ack with its number.
#[derive(Clone, Copy)]
pub enum Parsed {
    Message(u64, Part, BodyView),
    Ack(u64),
}

// Why a message is not written: it does not fit what is lent, or there is no such message, because an
// address or a list is too long or a list's keys do not rise. What is written is told by its length.
#[derive(Clone, Copy, Debug, PartialEq, Eq)]
pub enum Refused {
    NoRoom,
    Invalid,
}
