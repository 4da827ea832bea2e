// Does memory keep a map from key to owner? For audits, not for steps: all bounds are looked at.
#![tactic(auto)]

ghost use Rattle.std.specs.Prelude.{◌≤◌, length};
ghost use Rattle.audits_map.specs.Answers.{Valid};
ghost use Rattle.audits_map.specs.Inner.{Owned, Turning};

// Does memory keep a map in n bounds at all, with no owner but the hosts, whose numbers come first?
pub fn valid(lows: &[u64], owners: &[u64], n: usize, hosts: usize) -> bool
    ensures { Valid lows.now owners.now n hosts result }
{
    if !delegation::enough(lows, owners, n)
        || lows[0] != 0
        || !columns::rises(lows, n)
        || !turning(owners, n)
    {
        return false;
    }
    owned(owners, n, hosts)
}

// Has each of the first n bounds another owner than the one before it?
fn turning(owners: &[u64], n: usize) -> bool
    requires { n ≤ length owners.now }
    ensures { Turning owners.now n result }
{
    owners[..n].windows(2).all(|pair| pair[0] != pair[1])
}

// Is each of the first n owners one of the hosts?
fn owned(owners: &[u64], n: usize, hosts: usize) -> bool
    requires { n ≤ length owners.now }
    ensures { Owned owners.now n hosts result }
{
    owners[..n].iter().all(|&owner| owner < hosts as u64)
}
