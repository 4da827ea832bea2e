// Document 01's table, row by row, each row a crate of its own. A Delegate or a Shard stays while the count of
// transfers is at its limit.
#![tactic(auto)]

ghost use Rattle.lent.specs.Parts.{IndexStays, MapStays, PostStays, StringsStay};
ghost use Rattle.lent.specs.Contents.{index_now, map_now, post_now, strings_now, strings_seen};
ghost use Rattle.hosts.specs.Memory.{memory_of};
ghost use Rattle.rows.specs.Answers.{AfterBody};

use hosts::{Done, Processed, State};
use lent::{Index, Map, Post, Strings};
use message::BodyView;

// The row of the table for that body, which stands in the datagram s.
pub fn row(
    map: &mut Map<&mut [u64]>,
    index: &mut Index<&mut [u64]>,
    values: &mut Strings<&mut [u64], &mut [u8]>,
    names: Strings<&[u64], &[u8]>,
    post: &mut Post<&mut [u64]>,
    mail: &mut [u8],
    k: State,
    s: &[u8],
    body: BodyView,
    hint: usize,
) -> Done
    ensures stays { MapStays map.old map.new × IndexStays index.old index.new × StringsStay values.old values.new × PostStays post.old post.new }
    ensures is { AfterBody
        (memory_of (map_now map.old) (index_now index.old) (strings_now values.old) (strings_seen names.entry) (post_now post.old) mail.old)
        k s.now body result
        (memory_of (map_now map.new) (index_now index.new) (strings_now values.new) (strings_seen names.entry) (post_now post.new) mail.new) }
{
    match body {
        BodyView::Get(key) => getting::get(
            map.view(),
            index.view(),
            values.view(),
            names,
            post,
            mail,
            k,
            key,
            hint,
        ),
        BodyView::Set(key, v) => setting::set(
            map.view(),
            index,
            values,
            names,
            post,
            mail,
            k,
            s,
            key,
            v,
            hint,
        ),
        BodyView::Reply(_, _) => hosts::dropped(k),
        BodyView::Redirect(_, _) => hosts::dropped(k),
        BodyView::Shard(lo, hi, to) => {
            if staying::many(k) {
                return staying::staying(k, Processed::Stuck);
            }
            handing::shard(
                map,
                index,
                values.view(),
                names,
                post,
                mail,
                k,
                s,
                lo,
                hi,
                to,
                hint,
            )
        }
        BodyView::Delegate(lo, hi, list) => {
            if staying::many(k) {
                return staying::staying(k, Processed::Stuck);
            }
            accepting::delegate(map, index, values, k, s, lo, hi, list)
        }
    }
}
