// A Delegate that is sent: a range and its entries, handed in as columns.
#![tactic(auto)]

ghost use Rattle.message.specs.Message.{delegate};
ghost use Rattle.delegating.specs.Columns.{Columns, entered};
ghost use Rattle.lent.specs.Parts.{PostStays};
ghost use Rattle.sending.specs.Answers.{AfterSend};

use keys::Bound;
use lent::{Post, Strings};

// Writes the Delegate into place p and lets it wait there as the peer's message with that number.
pub fn delegate(
    names: Strings<&[u64], &[u8]>,
    width: usize,
    post: &mut Post<&mut [u64]>,
    mail: &mut [u8],
    size: usize,
    peer: usize,
    p: usize,
    number: u64,
    lo: Bound,
    hi: Bound,
    ks: &[u64],
    ats: &[u64],
    ls: &[u64],
    m: usize,
    bytes: &[u8],
) -> bool
    ensures stays { PostStays post.old post.new }
    ensures is { AfterSend names.entry.lens.now names.entry.bytes.now width post.old.counts.now post.old.places.now mail.old
        size peer p number (λ n. Columns ks.now ats.now ls.now bytes.now m)
        (λ N. delegate lo hi (entered ks.now ats.now ls.now bytes.now 0 m)) result
        post.new.counts.now post.new.places.now mail.new }
{
    let Some((a, b)) = peers::name(names.lens, names.bytes, width, peer) else {
        return false;
    };
    let Some((from, to)) = sending::lies(mail.len(), size, p) else {
        return false;
    };
    let Ok(len) = delegating::delegate(
        number,
        &names.bytes[a..b],
        lo,
        hi,
        ks,
        ats,
        ls,
        m,
        bytes,
        &mut mail[from..to],
    ) else {
        return false;
    };
    posting::post(post.counts, post.places, peer, p, number, len);
    true
}
