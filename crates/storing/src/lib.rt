// A key of the host's own is set: the value is stored, or the key is taken out, and the Reply has what was
// sent (document 01, section 5). The place and the number of the Reply were picked before, so the request
// is carried out only if it can be answered. A Set that finds the table full is dropped.
#![tactic(auto)]

ghost use Rattle.lent.specs.Parts.{IndexStays, PostStays, StringsStay};
ghost use Rattle.storing.specs.Answers.{AfterRemove, AfterPut};

use hosts::{Done, Processed, State};
use lent::{Index, Post, Strings};

// Takes the key out.
pub fn remove(
    index: &mut Index<&mut [u64]>,
    names: Strings<&[u64], &[u8]>,
    post: &mut Post<&mut [u64]>,
    mail: &mut [u8],
    k: State,
    key: u64,
    p: usize,
    number: u64,
) -> Done
    ensures stays { IndexStays index.old index.new × PostStays post.old post.new }
    ensures is { AfterRemove index.old.keys.now index.old.slots.now names.entry.lens.now names.entry.bytes.now post.old.counts.now post.old.places.now mail.old k key p number result
        index.new.keys.now index.new.slots.now post.new.counts.now post.new.places.now mail.new }
{
    let n = removals::delete(index.keys, index.slots, k.entries, key);
    let sent = replying::reply(
        names, k.width, post, mail, k.size, k.from, p, number, key, None,
    );
    hosts::answered(hosts::filled(k, n), sent, Processed::Replied(p))
}

// Stores the value.
pub fn put(
    index: &mut Index<&mut [u64]>,
    values: &mut Strings<&mut [u64], &mut [u8]>,
    names: Strings<&[u64], &[u8]>,
    post: &mut Post<&mut [u64]>,
    mail: &mut [u8],
    k: State,
    key: u64,
    value: &[u8],
    p: usize,
    number: u64,
) -> Done
    ensures stays { IndexStays index.old index.new × StringsStay values.old values.new × PostStays post.old post.new }
    ensures is { AfterPut index.old.keys.now index.old.slots.now values.old.lens.now values.old.bytes.now names.entry.lens.now names.entry.bytes.now post.old.counts.now post.old.places.now mail.old k key value.now p number result
        index.new.keys.now index.new.slots.now values.new.lens.now values.new.bytes.now post.new.counts.now post.new.places.now mail.new }
{
    let Ok(n) = stores::set(
        index.keys,
        index.slots,
        values.lens,
        values.bytes,
        k.entries,
        key,
        value,
    ) else {
        return hosts::dropped(k);
    };
    let sent = replying::reply(
        names,
        k.width,
        post,
        mail,
        k.size,
        k.from,
        p,
        number,
        key,
        Some(value),
    );
    hosts::answered(hosts::filled(k, n), sent, Processed::Replied(p))
}
