// The table from key to value in lent memory: document 01, sections 2, 5 and 6.
//
// Four slices and a count n, which the caller keeps: `keys` in rising order, `slots` a permutation of
// the places for values, `lens` and `values` by slot. An entry's value is never moved; keys and slot
// numbers are. specs/Table.antt says what a table is, specs/Memory.antt how memory keeps one and
// specs/Answers.antt what each function answers; proofs/Laws.antt has the laws that callers go by.
// Nothing is asked of a caller: memory that keeps no table gets an answer too, which then says
// nothing of a table, and no slice is read or written past its end.
#![tactic(auto)]

mod place;
mod slots;

ghost use Rattle.records.specs.Answers.{AfterStart, Fits, Got};

use limits::VALUE_MAX;

// Do slices of these lengths fit together, with n entries in use?
pub fn fits(keys: usize, slots: usize, lens: usize, values: usize, n: usize) -> bool
    ensures { Fits keys slots lens values n result }
{
    n <= slots && slots <= keys && slots <= lens && slots <= values / VALUE_MAX
}

// An empty table with as many places as there are slots. Answers whether what is lent fits together.
pub fn start(keys: &[u64], slots: &mut [u64], lens: &[u64], values: &[u8]) -> bool
    ensures { AfterStart keys.now slots.old lens.now values.now result slots.new }
{
    if !fits(keys.len(), slots.len(), lens.len(), values.len(), 0) {
        return false;
    }
    slots::number(slots);
    true
}

// Where the key's value stands in `values`, as its start and its length, or None if the key has none.
pub fn get(
    keys: &[u64],
    slots: &[u64],
    lens: &[u64],
    values: &[u8],
    n: usize,
    key: u64,
) -> Option<(usize, usize)>
    ensures { Got keys.now slots.now lens.now values.now n key result }
{
    match searches::seek(keys, n, key) {
        Ok(i) => place::of(slots, lens, values, i),
        Err(_) => None,
    }
}
