// The key is another host's: the asker is sent a Redirect to its owner (document 01, section 5). A Get and
// a Set both lead here.
#![tactic(auto)]

ghost use Rattle.lent.specs.Parts.{PostStays};
ghost use Rattle.referring.specs.Answers.{AfterRefer};

use hosts::{Done, Processed, State};
use lent::{Post, Strings};

// Sends the Redirect from the free place p, with that number.
pub fn refer(
    names: Strings<&[u64], &[u8]>,
    post: &mut Post<&mut [u64]>,
    mail: &mut [u8],
    k: State,
    p: usize,
    number: u64,
    key: u64,
    owner: usize,
) -> Done
    ensures stays { PostStays post.old post.new }
    ensures is { AfterRefer names.entry.lens.now names.entry.bytes.now post.old.counts.now post.old.places.now mail.old k p number key owner result
        post.new.counts.now post.new.places.now mail.new }
{
    let sent = redirecting::redirect(
        names, k.width, post, mail, k.size, k.from, p, number, key, owner,
    );
    hosts::answered(k, sent, Processed::Redirected(p))
}
