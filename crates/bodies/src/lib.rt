// The bodies, one reader each, and the one that tells them apart by their byte.
#![tactic(auto)]

ghost use Rattle.bodies.specs.Answers.{ReadBody, ReadFields};

use format::WIDTH;
use limits::BYTES_MAX;
use message::{BodyView, ListView};

// A body, and the place behind it.
#[tactic(auto, using(crate::proofs::Rows::body_row))]
pub fn read(s: &[u8], at: usize) -> Option<(BodyView, usize)>
    ensures { ReadBody s.now at result }
{
    match *s.get(at)? {
        0 => get(s, at + 1),
        1 => set(s, at + 1),
        2 => reply(s, at + 1),
        3 => redirect(s, at + 1),
        4 => shard(s, at + 1),
        5 => delegate(s, at + 1),
        _ => None,
    }
}

fn get(s: &[u8], at: usize) -> Option<(BodyView, usize)>
    ensures { ReadFields 0 s.now at result }
{
    let k = format::number(s, at)?;
    Some((BodyView::Get(k), at + WIDTH))
}

fn set(s: &[u8], at: usize) -> Option<(BodyView, usize)>
    ensures { ReadFields 1 s.now at result }
{
    let (k, v, next) = values::keyed(s, at)?;
    Some((BodyView::Set(k, v), next))
}

fn reply(s: &[u8], at: usize) -> Option<(BodyView, usize)>
    ensures { ReadFields 2 s.now at result }
{
    let (k, v, next) = values::keyed(s, at)?;
    Some((BodyView::Reply(k, v), next))
}

fn redirect(s: &[u8], at: usize) -> Option<(BodyView, usize)>
    ensures { ReadFields 3 s.now at result }
{
    let k = format::number(s, at)?;
    let address = format::short_text(s, at + WIDTH, BYTES_MAX)?;
    Some((BodyView::Redirect(k, address), address.at + address.len))
}

fn shard(s: &[u8], at: usize) -> Option<(BodyView, usize)>
    ensures { ReadFields 4 s.now at result }
{
    let (lo, hi, next) = fields::range(s, at)?;
    let recipient = format::short_text(s, next, BYTES_MAX)?;
    Some((
        BodyView::Shard(lo, hi, recipient),
        recipient.at + recipient.len,
    ))
}

fn delegate(s: &[u8], at: usize) -> Option<(BodyView, usize)>
    ensures { ReadFields 5 s.now at result }
{
    let (lo, hi, from) = fields::range(s, at)?;
    let (count, next) = lists::list(s, from, BYTES_MAX)?;
    let entries = ListView {
        at: from + WIDTH,
        count,
    };
    Some((BodyView::Delegate(lo, hi, entries), next))
}
