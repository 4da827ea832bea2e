// A message is taken into the room (document 01, sections 4 and 5): a new sender gets a place among the
// peers, the number counts as received, and the datagram is copied into the room, once.
#![tactic(auto)]

ghost use Rattle.taking.specs.Answers.{AfterTake};
ghost use Rattle.lent.specs.Parts.{StringsStay};
ghost use Rattle.taking.specs.Inner.{AfterSeat, AfterJoin};

use delivery::WORDS;
use hosts::State;
use lent::Strings;
use limits::NoRoom;

// Takes the datagram with that number from an address, which is looked for first at the peer of the hint, and
// answers the host's numbers after it.
pub fn take(
    names: &mut Strings<&mut [u64], &mut [u8]>,
    counts: &mut [u64],
    room: &mut [u8],
    k: State,
    from: &[u8],
    number: u64,
    s: &[u8],
    hint: usize,
) -> Result<State, NoRoom>
    ensures stays { StringsStay names.old names.new }
    ensures is { AfterTake names.old.lens.now names.old.bytes.now counts.old room.old k from.now number
        s.now result names.new.lens.now names.new.bytes.now counts.new room.new }
{
    if room.len() < s.len() {
        return Err(NoRoom);
    }
    let Some((i, peers)) = seated(names, counts, k.width, k.peers, from, hint) else {
        return Err(NoRoom);
    };
    counting::take(counts, i, number);
    memory::copy(s, room, 0);
    Ok(State {
        peers,
        len: s.len(),
        from: i,
        ..k
    })
}

// Which of n peers has that address? If none has, it becomes the next. Answers its number, and how many peers
// there are then, or None if there is no place for a new one.
fn seated(
    names: &mut Strings<&mut [u64], &mut [u8]>,
    counts: &mut [u64],
    width: usize,
    n: usize,
    from: &[u8],
    hint: usize,
) -> Option<(usize, usize)>
    ensures stays { StringsStay names.old names.new }
    ensures is { AfterSeat names.old.lens.now names.old.bytes.now counts.old width n from.now result
        names.new.lens.now names.new.bytes.now counts.new }
{
    let seen = names.view();
    match finding::find_near(seen.lens, seen.bytes, width, n, from, hint) {
        Some(i) => Some((i, n)),
        None => join(names, counts, width, n, from),
    }
}

// An address that none of n peers has becomes the next, if there are words for it and a place for its name.
fn join(
    names: &mut Strings<&mut [u64], &mut [u8]>,
    counts: &mut [u64],
    width: usize,
    n: usize,
    from: &[u8],
) -> Option<(usize, usize)>
    ensures stays { StringsStay names.old names.new }
    ensures is { AfterJoin names.old.lens.now names.old.bytes.now counts.old width n from.now result
        names.new.lens.now names.new.bytes.now counts.new }
{
    if counts.len() / WORDS <= n {
        return None;
    }
    let Ok(i) = peers::add(names.lens, names.bytes, width, n, from) else {
        return None;
    };
    counting::join(counts, n);
    Some((i, n + 1))
}
