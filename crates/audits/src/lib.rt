// Does memory keep what it should? For audits, not for steps: the look at the slots takes a turn for
// each pair of places.
#![tactic(auto)]

ghost use Rattle.std.specs.Prelude.{◌<◌, ◌≤◌, length};
ghost use Rattle.audits.specs.Answers.{Valid};
ghost use Rattle.audits.specs.Inner.{Permuted, Fresh, AllShort};

use limits::VALUE_MAX;

// Does memory keep a table at all?
pub fn valid(keys: &[u64], slots: &[u64], lens: &[u64], values: &[u8], n: usize) -> bool
    ensures { Valid keys.now slots.now lens.now values.now n result }
{
    if !records::fits(keys.len(), slots.len(), lens.len(), values.len(), n)
        || !columns::rises(keys, n)
        || !permuted(slots)
    {
        return false;
    }
    all_short(slots, lens, n)
}

// Are the slots a permutation of the places?
fn permuted(slots: &[u64]) -> bool
    ensures { Permuted slots.now result }
{
    for i in 0..slots.len() {
        if !fresh(slots, i) {
            return false;
        }
    }
    true
}

// Is the slot of place i one, and of no place before it?
fn fresh(slots: &[u64], i: usize) -> bool
    requires { i < length slots.now }
    ensures { Fresh slots.now i result }
{
    let s = slots[i];
    if slots.len() as u64 <= s {
        return false;
    }
    for j in 0..i {
        if slots[j] == s {
            return false;
        }
    }
    true
}

// Is no value of the first n entries too long?
fn all_short(slots: &[u64], lens: &[u64], n: usize) -> bool
    requires { n ≤ length slots.now }
    ensures { AllShort slots.now lens.now n result }
{
    for &slot in &slots[..n] {
        let s = slot as usize;
        if lens.len() <= s || VALUE_MAX < lens[s] as usize {
            return false;
        }
    }
    true
}
