// Setting a key's value in the table of `records`: it goes where the key's value stands, or the key is
// new and gets the first free slot. Nothing is asked of a caller.
#![tactic(auto)]

ghost use Rattle.std.specs.Prelude.{◌≤◌, length};
ghost use Rattle.limits.specs.Limits.{value_max};
ghost use Rattle.records.specs.Memory.{Shape};
ghost use Rattle.stores.specs.Answers.{AfterSet};
ghost use Rattle.stores.specs.Inner.{Written, AfterAdd, AfterRenew};

use limits::VALUE_MAX;

// Why an entry is not set. Then nothing has changed.
#[derive(Clone, Copy, Debug, PartialEq, Eq)]
pub enum Refused {
    Full,
    TooLong,
}

// Sets the key's value, and answers how many entries there are then. A new key of a full table and a
// long value are refused.
pub fn set(
    keys: &mut [u64],
    slots: &mut [u64],
    lens: &mut [u64],
    values: &mut [u8],
    n: usize,
    key: u64,
    value: &[u8],
) -> Result<usize, Refused>
    ensures { AfterSet keys.old slots.old lens.old values.old n key value.now result
        keys.new slots.new lens.new values.new }
{
    if VALUE_MAX < value.len() {
        return Err(Refused::TooLong);
    }
    if !records::fits(keys.len(), slots.len(), lens.len(), values.len(), n) {
        return Err(Refused::Full);
    }
    match searches::seek(keys, n, key) {
        Ok(i) => renew(slots, lens, values, n, i, value),
        Err(p) => add(keys, slots, lens, values, n, p, key, value),
    }
}

// The entry at place i gets another value.
fn renew(
    slots: &[u64],
    lens: &mut [u64],
    values: &mut [u8],
    n: usize,
    i: usize,
    value: &[u8],
) -> Result<usize, Refused>
    requires { length value.now ≤ value_max }
    ensures { AfterRenew slots.now lens.old values.old n i value.now result
        lens.new values.new }
{
    if write(slots, lens, values, i, value) {
        return Ok(n);
    }
    Err(Refused::Full)
}

// A new key before place p: its value goes into the first free slot, and the slot's number to place p.
fn add(
    keys: &mut [u64],
    slots: &mut [u64],
    lens: &mut [u64],
    values: &mut [u8],
    n: usize,
    p: usize,
    key: u64,
    value: &[u8],
) -> Result<usize, Refused>
    requires { Shape (length keys.old) (length slots.old) (length lens.old) (length values.old) n × (p ≤ n) × (length value.now ≤ value_max) }
    ensures { AfterAdd keys.old slots.old lens.old values.old n p key value.now result
        keys.new slots.new lens.new values.new }
{
    if n == slots.len() || !write(slots, lens, values, n, value) {
        return Err(Refused::Full);
    }
    let s = slots[n];
    columns::insert(keys, n, p, key);
    columns::insert(slots, n, p, s);
    Ok(n + 1)
}

// Writes the value into the slot of place i. Refused only where memory keeps no table.
fn write(slots: &[u64], lens: &mut [u64], values: &mut [u8], i: usize, value: &[u8]) -> bool
    requires { length value.now ≤ value_max }
    ensures { Written slots.now lens.old values.old i value.now result
        lens.new values.new }
{
    if slots.len() <= i {
        return false;
    }
    let s = slots[i] as usize;
    if lens.len() <= s || values.len() / VALUE_MAX <= s {
        return false;
    }
    lens[s] = value.len() as u64;
    memory::copy(value, values, s * VALUE_MAX);
    true
}
