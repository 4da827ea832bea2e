// A host over lent memory: its plain numbers, and what its steps answer. specs/Keeps.antt says which host
// memory keeps; the host itself, as a function, is crate `protocol`.
#![tactic(auto)]

ghost use Rattle.std.specs.Prelude.{◌≡◌, suc, ◌<◌};
ghost use Rattle.limits.specs.Limits.{numbers};
ghost use Rattle.hosts.specs.Answers.{emptied, filled, moved, sent_or, dropped_of};

// The plain numbers of a host. `me` is the own number among the peers, of whom the first `hosts` are the
// hosts; names stand `width` bytes apart and datagrams `size`; `len` is the length of the datagram in the
// room, 0 if it is free, and `from` the number of the peer that sent it.
#[derive(Clone, Copy)]
pub struct State {
    pub me: usize,
    pub hosts: usize,
    pub peers: usize,
    pub width: usize,
    pub size: usize,
    pub bounds: usize,
    pub entries: usize,
    pub len: usize,
    pub from: usize,
    pub transfers: u64,
    pub turns: u64,
}

// What became of the message in the room, with the place of the datagram to send if there is one.
#[derive(Clone, Copy)]
pub enum Processed {
    Idle,
    Stuck,
    Replied(usize),
    Redirected(usize),
    Dropped,
    Unnumbered,
    Accepted,
    Handed(usize),
}

// The host's numbers after a step, and what became of it.
#[derive(Clone, Copy)]
pub struct Done {
    pub state: State,
    pub outcome: Processed,
}

// The numbers with the room free.
pub fn emptied(k: State) -> State
    ensures { result ≡ emptied k }
{
    State { len: 0, ..k }
}

// The numbers with other entries.
pub fn filled(k: State, entries: usize) -> State
    ensures { result ≡ filled k entries }
{
    State { entries, ..k }
}

// The numbers with the room free after a transfer: other bounds and entries, and one more in the count,
// which a host keeps far below the largest number.
pub fn moved(k: State, bounds: usize, entries: usize) -> State
    ensures { (result.len ≡ 0) × (suc k.transfers < numbers → result ≡ moved k bounds entries) }
{
    let transfers = k.transfers.saturating_add(1);
    State {
        bounds,
        entries,
        len: 0,
        transfers,
        ..k
    }
}

// What became of a message that was to be answered: the outcome if the answer was sent.
pub fn answered(k: State, sent: bool, outcome: Processed) -> Done
    ensures { result ≡ sent_or k sent outcome }
{
    if sent {
        return Done {
            state: emptied(k),
            outcome,
        };
    }
    Done {
        state: emptied(k),
        outcome: Processed::Unnumbered,
    }
}

// The message is dropped.
pub fn dropped(k: State) -> Done
    ensures { result ≡ dropped_of k }
{
    Done {
        state: emptied(k),
        outcome: Processed::Dropped,
    }
}
