// Does memory keep the addresses of peers? For audits, not for steps: each address is compared with all
// before it.
#![tactic(auto)]

ghost use Rattle.std.specs.Prelude.{◌+◌, ◌*◌, ◌≤◌, ◌<◌, length};
ghost use Rattle.audits_names.specs.Answers.{Valid};
ghost use Rattle.audits_names.specs.Inner.{Fresh};

// Does memory keep the addresses of n peers at all?
pub fn valid(lens: &[u64], names: &[u8], width: usize, n: usize) -> bool
    ensures { Valid lens.now names.now width n result }
{
    if width == 0 || lens.len() < n || names.len() / width < n {
        return false;
    }
    for i in 0..n {
        if !fresh(lens, names, width, i) {
            return false;
        }
    }
    true
}

// Is the address of peer i short enough for its place, and that of no peer before it?
fn fresh(lens: &[u64], names: &[u8], width: usize, i: usize) -> bool
    requires { (i < length lens.now) × (i * width + width ≤ length names.now) }
    ensures { Fresh lens.now names.now width i result }
{
    let len = lens[i] as usize;
    if width < len {
        return false;
    }
    let from = i * width;
    let to = from + len;
    finding::find(lens, names, width, i, &names[from..to]).is_none()
}
