// A list of byte strings, handed in as two columns of m places: where in the bytes each string starts
// and how long it is. Addresses of hosts and values of entries come in this form, and before any of them
// is looked at, `inside` tells whether they are there at all, and `none_longer` whether one is too long. What
// they answer stands in specs/Strings.antt; nothing is asked of a caller. `distinct` compares the strings.
#![tactic(auto)]

ghost use Rattle.strings.specs.Strings.{Inside, NoneLonger};

// Are the columns there, and does each of the m strings lie within that many bytes?
pub fn inside(ats: &[u64], lens: &[u64], m: usize, size: usize) -> bool
    ensures { Inside ats.now lens.now m size result }
{
    if ats.len() < m || lens.len() < m {
        return false;
    }
    for i in 0..m {
        let at = ats[i] as usize;
        if size < at || size - at < lens[i] as usize {
            return false;
        }
    }
    true
}

// Is none of the first m strings longer than that? What is not in the column has no length.
pub fn none_longer(lens: &[u64], m: usize, most: usize) -> bool
    ensures { NoneLonger lens.now m most result }
{
    lens.iter().take(m).all(|&len| len as usize <= most)
}
