// The permutation of the slots as it is at the start.
ghost use Rattle.records.specs.Memory.{Slots};

// Each place has the slot of its own number.
pub(crate) fn number(slots: &mut [u64])
    ensures { Slots slots.new }
{
    for (i, slot) in slots.iter_mut().enumerate() {
        *slot = i as u64;
    }
}
