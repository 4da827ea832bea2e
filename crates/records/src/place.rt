// Where the value of an entry stands.
ghost use Rattle.records.specs.Inner.{Placed};

use limits::VALUE_MAX;

// Where the value of the entry at place i stands, as its start and its length. None only where
// memory keeps no table.
pub(crate) fn of(slots: &[u64], lens: &[u64], values: &[u8], i: usize) -> Option<(usize, usize)>
    ensures { Placed slots.now lens.now values.now i result }
{
    let s = *slots.get(i)? as usize;
    let len = *lens.get(s)? as usize;
    if values.len() / VALUE_MAX <= s || VALUE_MAX < len {
        return None;
    }
    Some((s * VALUE_MAX, len))
}
