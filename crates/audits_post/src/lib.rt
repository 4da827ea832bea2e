// Does memory keep what is known of peers, and the messages that wait for them? For audits, not for steps:
// for each place, and for each message that should wait, all places are looked through.
#![tactic(auto)]

ghost use Rattle.std.specs.Prelude.{◌+◌, ◌*◌, ◌≤◌, ◌<◌, length};
ghost use Rattle.delivery.specs.Memory.{capacity};
ghost use Rattle.audits_post.specs.Answers.{Valid};
ghost use Rattle.audits_post.specs.Inner.{Tells, First, Fits, AllFit, Told, AllTold};

use delivery::WORDS;

// Does memory keep something for the first n peers at all?
pub fn valid(counts: &[u64], places: &[u64], mail: &[u8], size: usize, n: usize) -> bool
    ensures { Valid counts.now places.now mail.now size n result }
{
    if size == 0 {
        return false;
    }
    if counts.len() / WORDS < n || mail.len() / size < places.len() / WORDS {
        return false;
    }
    all_fit(counts, places, size, n) && all_told(counts, places, n)
}

// Is each place free, or a message's that waits for one of the first n peers?
fn all_fit(counts: &[u64], places: &[u64], size: usize, n: usize) -> bool
    requires { n * 3 ≤ length counts.now }
    ensures { Tells (AllFit counts.now places.now size n) result }
{
    for p in 0..places.len() / WORDS {
        if !fits(counts, places, size, n, p) {
            return false;
        }
    }
    true
}

// Is place p free? Or else: is its peer one of the first n, has the datagram room, is the number one of a
// message that waits for that peer, and has no place before it the same peer and number?
fn fits(counts: &[u64], places: &[u64], size: usize, n: usize, p: usize) -> bool
    requires { (n * 3 ≤ length counts.now) × (p < capacity places.now) }
    ensures { Tells (Fits counts.now places.now size n p) result }
{
    let mark = places[p * WORDS];
    if mark == 0 {
        return true;
    }
    if n as u64 <= mark - 1 {
        return false;
    }
    let i = (mark - 1) as usize;
    let number = places[p * WORDS + 1];
    if size < places[p * WORDS + 2] as usize {
        return false;
    }
    if number <= counts[i * WORDS + 1] || counts[i * WORDS + 2] < number {
        return false;
    }
    first(places, mark, number) == Some(p)
}

// The first place with that mark and number.
fn first(places: &[u64], mark: u64, number: u64) -> Option<usize>
    ensures { First places.now mark number result }
{
    for p in 0..places.len() / WORDS {
        if places[p * WORDS] == mark && places[p * WORDS + 1] == number {
            return Some(p);
        }
    }
    None
}

// Does each message that should wait for the first n peers?
fn all_told(counts: &[u64], places: &[u64], n: usize) -> bool
    requires { n * 3 ≤ length counts.now }
    ensures { Tells (AllTold counts.now places.now n) result }
{
    for i in 0..n {
        if !told(counts, places, i) {
            return false;
        }
    }
    true
}

// Has each number after those that peer i has acknowledged, up to the last, its place? Places have one
// number each, so however far away the last is, there are no more turns than places, and one.
fn told(counts: &[u64], places: &[u64], i: usize) -> bool
    requires { i * 3 + 3 ≤ length counts.now }
    ensures { Tells (Told counts.now places.now i) result }
{
    let known = counts[i * WORDS + 1];
    let last = counts[i * WORDS + 2];
    if last < known {
        return false;
    }
    for number in known..last {
        if first(places, i as u64 + 1, number + 1).is_none() {
            return false;
        }
    }
    true
}
