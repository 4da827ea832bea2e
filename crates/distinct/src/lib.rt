// Which strings of a list are equal, the list handed in as `strings` has it: is a name among them, and do
// all of them differ, as the addresses of hosts must? What each function answers stands in
// specs/Distinct.antt; nothing is asked of a caller.
#![tactic(auto)]

ghost use Rattle.distinct.specs.Distinct.{Among, Distinct};

// Is the name one of the m strings?
pub fn among(ats: &[u64], lens: &[u64], m: usize, bytes: &[u8], name: &[u8]) -> bool
    ensures { Among ats.now lens.now m bytes.now name.now result }
{
    if !strings::inside(ats, lens, m, bytes.len()) {
        return false;
    }
    for i in 0..m {
        let at = ats[i] as usize;
        let end = at + lens[i] as usize;
        if memory::same(&bytes[at..end], name) {
            return true;
        }
    }
    false
}

// Are no two of the m strings equal? Each is looked up among those before it.
pub fn distinct(ats: &[u64], lens: &[u64], m: usize, bytes: &[u8]) -> bool
    ensures { Distinct ats.now lens.now m bytes.now result }
{
    if !strings::inside(ats, lens, m, bytes.len()) {
        return false;
    }
    for i in 0..m {
        let at = ats[i] as usize;
        let end = at + lens[i] as usize;
        if among(ats, lens, i, bytes, &bytes[at..end]) {
            return false;
        }
    }
    true
}
