// Lent bytes, worked on in one place: the only copy of bytes, and the comparison of two byte strings.
// Nothing is asked of a caller: what does not fit is refused, and then nothing has changed.
#![tactic(auto)]

ghost use Rattle.memory.specs.Bytes.{Copied, Same};

// Copies all of src into dst, from dst's byte `at` on, and answers whether it fits there.
pub fn copy(src: &[u8], dst: &mut [u8], at: usize) -> bool
    ensures { Copied src.now dst.old at result dst.new }
{
    if dst.len() < at {
        return false;
    }
    if dst.len() - at < src.len() {
        return false;
    }
    dst[at..at + src.len()].copy_from_slice(src);
    true
}

// Are the two byte strings equal?
pub fn same(a: &[u8], b: &[u8]) -> bool
    ensures { Same a.now b.now result }
{
    a == b
}
