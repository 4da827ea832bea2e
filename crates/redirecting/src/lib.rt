// A Redirect that is sent: a key, and the address of the host that has it.
#![tactic(auto)]

ghost use Rattle.std.specs.Prelude.{◌<◌};
ghost use Rattle.message.specs.Message.{redirect};
ghost use Rattle.lent.specs.Parts.{PostStays};
ghost use Rattle.sending.specs.Answers.{AfterSend};

use lent::{Post, Strings};

// Writes the Redirect to the owner into place p and lets it wait there as the peer's message with that
// number.
pub fn redirect(
    names: Strings<&[u64], &[u8]>,
    width: usize,
    post: &mut Post<&mut [u64]>,
    mail: &mut [u8],
    size: usize,
    peer: usize,
    p: usize,
    number: u64,
    key: u64,
    owner: usize,
) -> bool
    ensures stays { PostStays post.old post.new }
    ensures is { AfterSend names.entry.lens.now names.entry.bytes.now width post.old.counts.now post.old.places.now mail.old
        size peer p number (λ n. owner < n) (λ N. redirect key (N owner)) result post.new.counts.now post.new.places.now mail.new }
{
    let Some((a, b)) = peers::name(names.lens, names.bytes, width, peer) else {
        return false;
    };
    let Some((c, d)) = peers::name(names.lens, names.bytes, width, owner) else {
        return false;
    };
    let Some((from, to)) = sending::lies(mail.len(), size, p) else {
        return false;
    };
    let Ok(len) = directing::redirect(
        number,
        &names.bytes[a..b],
        key,
        &names.bytes[c..d],
        &mut mail[from..to],
    ) else {
        return false;
    };
    posting::post(post.counts, post.places, peer, p, number, len);
    true
}
