// What became of a step, as a number, and the place of the datagram to send.
// They are functions and no `From`: what became of a step and u64 are both types of other crates.
#![tactic(auto)]

ghost use Rattle.std.specs.Prelude.{◌≡◌};
ghost use Rattle.codes.specs.Codes.{received_code, processed_code, processed_place_of, repeated_code, turned_code, turned_place_of, audited_code};

use hosts::Processed;
use incoming::Received;
use limits::NoRoom;
use rounds::Turned;

// A host was started.
pub const STARTED: u64 = 0;

// No host starts with such a list.
pub const NO_HOST: u64 = 1;

// What was lent does not serve.
pub const UNFIT: u64 = 2;

// Memory keeps a host.
pub const HOST: u64 = 1;

// Memory keeps no host.
pub const KEEPS_NONE: u64 = 0;

// There are too few places, or too few words, to send again.
pub const NO_PLACES: u64 = 18446744073709551615;

// What became of a datagram.
pub fn received(o: Received) -> u64
    ensures { result ≡ received_code o }
{
    match o {
        Received::Full => 10,
        Received::Invalid => 11,
        Received::Elsewhere => 12,
        Received::Taken => 13,
        Received::Unreceived => 14,
        Received::Again => 15,
        Received::Future => 16,
        Received::Arrived => 17,
        Received::Stale => 18,
        Received::Unfit => UNFIT,
    }
}

// What became of the message in the room.
pub fn processed(o: Processed) -> u64
    ensures { result ≡ processed_code o }
{
    match o {
        Processed::Idle => 20,
        Processed::Stuck => 21,
        Processed::Replied(_) => 22,
        Processed::Redirected(_) => 23,
        Processed::Dropped => 24,
        Processed::Unnumbered => 25,
        Processed::Accepted => 26,
        Processed::Handed(_) => 27,
    }
}

// The place of the datagram to send, or 0 if there is none.
pub fn processed_place(o: Processed) -> u64
    ensures { result ≡ processed_place_of o }
{
    match o {
        Processed::Replied(p) | Processed::Redirected(p) | Processed::Handed(p) => p as u64,
        Processed::Idle
        | Processed::Stuck
        | Processed::Dropped
        | Processed::Unnumbered
        | Processed::Accepted => 0,
    }
}

// How many places were written down.
pub fn repeated(r: Result<usize, NoRoom>) -> u64
    ensures { result ≡ repeated_code r }
{
    match r {
        Ok(n) => n as u64,
        Err(_) => NO_PLACES,
    }
}

// What became of a turn.
pub fn turned(o: Turned) -> u64
    ensures { result ≡ turned_code o }
{
    match o {
        Turned::Came(r) => received(r),
        Turned::Did(r) => processed(r),
        Turned::Resent(_) => 30,
        Turned::Waits => 31,
        Turned::Unfit => UNFIT,
    }
}

// The place of the datagram to send, or how many places were written down, or the hint for processing.
pub fn turned_place(o: Turned, hint: usize) -> u64
    ensures { result ≡ turned_place_of o hint }
{
    match o {
        Turned::Came(_) => hint as u64,
        Turned::Did(r) => processed_place(r),
        Turned::Resent(n) => n as u64,
        Turned::Waits | Turned::Unfit => 0,
    }
}

// Does memory keep a host?
pub fn audited(b: bool) -> u64
    ensures { result ≡ audited_code b }
{
    if b { HOST } else { KEEPS_NONE }
}
