// The message in the room is processed: it is read, and the row of document 01's table for its body is carried
// out.
#![tactic(auto)]

ghost use Rattle.lent.specs.Parts.{IndexStays, MapStays, PostStays, StringsStay};
ghost use Rattle.lent.specs.Contents.{index_now, map_now, post_now, strings_now, strings_seen};
ghost use Rattle.hosts.specs.Memory.{memory_of};
ghost use Rattle.processing.specs.Answers.{AfterProcess};

use hosts::{Done, Processed, State};
use lent::{Index, Map, Post, Strings};
use message::Parsed;

// Processes the message in the room, if there is one. What is sent is put into the place of the hint, if that
// is free.
pub fn process(
    map: &mut Map<&mut [u64]>,
    index: &mut Index<&mut [u64]>,
    values: &mut Strings<&mut [u64], &mut [u8]>,
    names: Strings<&[u64], &[u8]>,
    post: &mut Post<&mut [u64]>,
    mail: &mut [u8],
    room: &[u8],
    k: State,
    hint: usize,
) -> Done
    ensures stays { MapStays map.old map.new × IndexStays index.old index.new × StringsStay values.old values.new × PostStays post.old post.new }
    ensures is { AfterProcess
        (memory_of (map_now map.old) (index_now index.old) (strings_now values.old) (strings_seen names.entry) (post_now post.old) mail.old)
        k room.now result
        (memory_of (map_now map.new) (index_now index.new) (strings_now values.new) (strings_seen names.entry) (post_now post.new) mail.new) }
{
    if k.len == 0 || room.len() < k.len {
        return staying::staying(k, Processed::Idle);
    }
    let s = &room[..k.len];
    match parsing::parse(s) {
        Some(Parsed::Message(_, _, body)) => rows::row(
            map, index, values, names, post, mail, k, s, body, hint,
        ),
        Some(Parsed::Ack(_)) => staying::staying(k, Processed::Idle),
        None => staying::staying(k, Processed::Idle),
    }
}
