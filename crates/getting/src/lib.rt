// The rows of the Get in document 01, section 5: a Reply with the value or none where the key is the
// host's own, else a Redirect to its owner. The value is copied once, from the table to the place where
// the Reply waits.
#![tactic(auto)]

ghost use Rattle.hosts.specs.Memory.{memory_of};
ghost use Rattle.lent.specs.Parts.{PostStays};
ghost use Rattle.lent.specs.Contents.{index_seen, map_seen, post_now, strings_seen};
ghost use Rattle.getting.specs.Answers.{AfterGet, AfterRespond, AfterValue};

use hosts::{Done, Processed, State};
use lent::{Index, Map, Post, Strings};

// Processes the Get of a key. The Reply is put into the place of the hint, if that is free.
pub fn get(
    map: Map<&[u64]>,
    index: Index<&[u64]>,
    values: Strings<&[u64], &[u8]>,
    names: Strings<&[u64], &[u8]>,
    post: &mut Post<&mut [u64]>,
    mail: &mut [u8],
    k: State,
    key: u64,
    hint: usize,
) -> Done
    ensures stays { PostStays post.old post.new }
    ensures is { AfterGet
        (memory_of (map_seen map.entry) (index_seen index.entry) (strings_seen values.entry) (strings_seen names.entry) (post_now post.old) mail.old)
        k key result
        (memory_of (map_seen map.entry) (index_seen index.entry) (strings_seen values.entry) (strings_seen names.entry) (post_now post.new) mail.new) }
{
    let seen = post.view();
    let Ok((p, number)) = picking::pick(seen.counts, seen.places, k.from, hint) else {
        return hosts::answered(k, false, Processed::Dropped);
    };
    respond(map, index, values, names, post, mail, k, key, p, number)
}

// Answers from the free place p, with that number.
fn respond(
    map: Map<&[u64]>,
    index: Index<&[u64]>,
    values: Strings<&[u64], &[u8]>,
    names: Strings<&[u64], &[u8]>,
    post: &mut Post<&mut [u64]>,
    mail: &mut [u8],
    k: State,
    key: u64,
    p: usize,
    number: u64,
) -> Done
    ensures stays { PostStays post.old post.new }
    ensures is { AfterRespond
        (memory_of (map_seen map.entry) (index_seen index.entry) (strings_seen values.entry) (strings_seen names.entry) (post_now post.old) mail.old)
        k key p number result
        (memory_of (map_seen map.entry) (index_seen index.entry) (strings_seen values.entry) (strings_seen names.entry) (post_now post.new) mail.new) }
{
    let owner = delegation::owner(map.lows, map.owners, k.bounds, key) as usize;
    if owner != k.me {
        return referring::refer(names, post, mail, k, p, number, key, owner);
    }
    let sent = value(
        index, values, k.entries, names, k.width, post, mail, k.size, k.from, p, number, key,
    );
    hosts::answered(k, sent, Processed::Replied(p))
}

// Sends the peer the Reply with what the table has for the key.
fn value(
    index: Index<&[u64]>,
    values: Strings<&[u64], &[u8]>,
    entries: usize,
    names: Strings<&[u64], &[u8]>,
    width: usize,
    post: &mut Post<&mut [u64]>,
    mail: &mut [u8],
    size: usize,
    peer: usize,
    p: usize,
    number: u64,
    key: u64,
) -> bool
    ensures stays { PostStays post.old post.new }
    ensures is { AfterValue index.entry.keys.now index.entry.slots.now values.entry.lens.now values.entry.bytes.now entries names.entry.lens.now names.entry.bytes.now width
        post.old.counts.now post.old.places.now mail.old size peer p number key result post.new.counts.now post.new.places.now mail.new }
{
    let found = records::get(
        index.keys,
        index.slots,
        values.lens,
        values.bytes,
        entries,
        key,
    );
    let Some((at, len)) = found else {
        return replying::reply(names, width, post, mail, size, peer, p, number, key, None);
    };
    let end = at + len;
    let value = &values.bytes[at..end];
    replying::reply(
        names,
        width,
        post,
        mail,
        size,
        peer,
        p,
        number,
        key,
        Some(value),
    )
}
