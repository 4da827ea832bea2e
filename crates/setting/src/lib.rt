// The rows of the Set in document 01, section 5: a value that is too long is dropped; where the key is the
// host's own it is set, and else the asker is sent to the owner. The number for the answer is picked first,
// so a request that can't be answered is not carried out.
#![tactic(auto)]

ghost use Rattle.lent.specs.Parts.{IndexStays, PostStays, StringsStay};
ghost use Rattle.lent.specs.Contents.{index_now, map_seen, post_now, strings_now, strings_seen};
ghost use Rattle.hosts.specs.Memory.{memory_of};
ghost use Rattle.sets.specs.Answers.{Sound};
ghost use Rattle.setting.specs.Answers.{AfterSet, AfterSettle};

use format::Part;
use hosts::{Done, Processed, State};
use lent::{Index, Map, Post, Strings};

// Processes the Set of a key, whose value stands in the datagram s. The answer is put into the place of the
// hint, if that is free.
pub fn set(
    map: Map<&[u64]>,
    index: &mut Index<&mut [u64]>,
    values: &mut Strings<&mut [u64], &mut [u8]>,
    names: Strings<&[u64], &[u8]>,
    post: &mut Post<&mut [u64]>,
    mail: &mut [u8],
    k: State,
    s: &[u8],
    key: u64,
    v: Option<Part>,
    hint: usize,
) -> Done
    ensures stays { IndexStays index.old index.new × StringsStay values.old values.new × PostStays post.old post.new }
    ensures is { AfterSet
        (memory_of (map_seen map.entry) (index_now index.old) (strings_now values.old) (strings_seen names.entry) (post_now post.old) mail.old)
        k s.now key v result
        (memory_of (map_seen map.entry) (index_now index.new) (strings_now values.new) (strings_seen names.entry) (post_now post.new) mail.new) }
{
    if !sets::sound(s, v) {
        return hosts::dropped(k);
    }
    let seen = post.view();
    let Ok((p, number)) = picking::pick(seen.counts, seen.places, k.from, hint) else {
        return hosts::answered(k, false, Processed::Dropped);
    };
    settle(
        map, index, values, names, post, mail, k, s, key, v, p, number,
    )
}

// Sets the key if it is the host's own, and refers the asker to the owner else.
fn settle(
    map: Map<&[u64]>,
    index: &mut Index<&mut [u64]>,
    values: &mut Strings<&mut [u64], &mut [u8]>,
    names: Strings<&[u64], &[u8]>,
    post: &mut Post<&mut [u64]>,
    mail: &mut [u8],
    k: State,
    s: &[u8],
    key: u64,
    v: Option<Part>,
    p: usize,
    number: u64,
) -> Done
    requires { Sound s.now v }
    ensures stays { IndexStays index.old index.new × StringsStay values.old values.new × PostStays post.old post.new }
    ensures is { AfterSettle
        (memory_of (map_seen map.entry) (index_now index.old) (strings_now values.old) (strings_seen names.entry) (post_now post.old) mail.old)
        k s.now key v p number result
        (memory_of (map_seen map.entry) (index_now index.new) (strings_now values.new) (strings_seen names.entry) (post_now post.new) mail.new) }
{
    let owner = delegation::owner(map.lows, map.owners, k.bounds, key) as usize;
    if owner != k.me {
        return referring::refer(names, post, mail, k, p, number, key, owner);
    }
    match v {
        None => storing::remove(index, names, post, mail, k, key, p, number),
        Some(part) => storing::put(
            index,
            values,
            names,
            post,
            mail,
            k,
            key,
            &s[part.at..part.at + part.len],
            p,
            number,
        ),
    }
}
