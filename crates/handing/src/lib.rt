// A range that is handed over: the row of the Shard in document 01, section 5. The range becomes the
// recipient's, and its entries go there in a Delegate that waits until it is acknowledged. The room test
// has made sure that there is room.
#![tactic(auto)]

ghost use Rattle.lent.specs.Parts.{MapStays, IndexStays, PostStays};
ghost use Rattle.handing.specs.Answers.{AfterShard};
ghost use Rattle.handing.specs.Inner.{AfterOffer, AfterHand};

use format::Part;
use hosts::{Done, Processed, State};
use keys::Bound;
use lent::{Index, Map, Post, Strings};
use limits::ENTRIES_LIMIT;
use picking::Refused;

// Processes the Shard whose recipient's address stands in the datagram s. The Delegate is put into the place
// of the hint, if that is free.
pub fn shard(
    map: &mut Map<&mut [u64]>,
    index: &mut Index<&mut [u64]>,
    values: Strings<&[u64], &[u8]>,
    names: Strings<&[u64], &[u8]>,
    post: &mut Post<&mut [u64]>,
    mail: &mut [u8],
    k: State,
    s: &[u8],
    lo: Bound,
    hi: Bound,
    to: Part,
    hint: usize,
) -> Done
    ensures stays { MapStays map.old map.new × IndexStays index.old index.new × PostStays post.old post.new }
    ensures is { AfterShard map.old.lows.now map.old.owners.now index.old.keys.now index.old.slots.now values.entry.lens.now
        values.entry.bytes.now names.entry.lens.now names.entry.bytes.now post.old.counts.now post.old.places.now mail.old
        k s.now lo hi to result map.new.lows.now map.new.owners.now index.new.keys.now index.new.slots.now post.new.counts.now
        post.new.places.now mail.new }
{
    let Some(i) = shards::recipient(names, k, s, to) else {
        return hosts::dropped(k);
    };
    if !shards::all_mine(map.view(), k, lo, hi) {
        return hosts::dropped(k);
    }
    offer(map, index, values, names, post, mail, k, lo, hi, i, hint)
}

// Picks the range's entries out and hands them over to host i, unless they are too many.
fn offer(
    map: &mut Map<&mut [u64]>,
    index: &mut Index<&mut [u64]>,
    values: Strings<&[u64], &[u8]>,
    names: Strings<&[u64], &[u8]>,
    post: &mut Post<&mut [u64]>,
    mail: &mut [u8],
    k: State,
    lo: Bound,
    hi: Bound,
    i: usize,
    hint: usize,
) -> Done
    ensures stays { MapStays map.old map.new × IndexStays index.old index.new × PostStays post.old post.new }
    ensures is { AfterOffer map.old.lows.now map.old.owners.now index.old.keys.now index.old.slots.now values.entry.lens.now
        values.entry.bytes.now names.entry.lens.now names.entry.bytes.now post.old.counts.now post.old.places.now mail.old
        k lo hi i result map.new.lows.now map.new.owners.now index.new.keys.now index.new.slots.now post.new.counts.now
        post.new.places.now mail.new }
{
    let mut ks = [0u64; ENTRIES_LIMIT - 1];
    let mut ats = [0u64; ENTRIES_LIMIT - 1];
    let mut ls = [0u64; ENTRIES_LIMIT - 1];
    let table = index.view();
    let Ok(m) = ranges::pick(
        table.keys,
        table.slots,
        values.lens,
        values.bytes,
        k.entries,
        lo,
        hi,
        &mut ks,
        &mut ats,
        &mut ls,
    ) else {
        return hosts::dropped(k);
    };
    hand(
        map,
        index,
        values.bytes,
        names,
        post,
        mail,
        k,
        lo,
        hi,
        i,
        &ks,
        &ats,
        &ls,
        m,
        hint,
    )
}

// Sends the range's entries, which the columns have, to a peer, and gives it the range. Without a number
// for the Delegate only the count of transfers is raised.
fn hand(
    map: &mut Map<&mut [u64]>,
    index: &mut Index<&mut [u64]>,
    bytes: &[u8],
    names: Strings<&[u64], &[u8]>,
    post: &mut Post<&mut [u64]>,
    mail: &mut [u8],
    k: State,
    lo: Bound,
    hi: Bound,
    peer: usize,
    ks: &[u64],
    ats: &[u64],
    ls: &[u64],
    m: usize,
    hint: usize,
) -> Done
    ensures stays { MapStays map.old map.new × IndexStays index.old index.new × PostStays post.old post.new }
    ensures is { AfterHand map.old.lows.now map.old.owners.now index.old.keys.now index.old.slots.now bytes.now
        names.entry.lens.now names.entry.bytes.now post.old.counts.now post.old.places.now mail.old k lo hi peer
        ks.now ats.now ls.now m result map.new.lows.now map.new.owners.now index.new.keys.now
        index.new.slots.now post.new.counts.now post.new.places.now mail.new }
{
    let waiting = post.view();
    match picking::pick(waiting.counts, waiting.places, peer, hint) {
        Ok((p, number)) => {
            let sent = transferring::delegate(
                names, k.width, post, mail, k.size, peer, p, number, lo, hi, ks, ats, ls, m, bytes,
            );
            if !sent {
                return hosts::dropped(k);
            }
            giving::give(map, index, k, lo, hi, peer, p)
        }
        Err(Refused::NoNumber) => Done {
            state: hosts::moved(k, k.bounds, k.entries),
            outcome: Processed::Unnumbered,
        },
        Err(Refused::NoPlace) => hosts::dropped(k),
    }
}
