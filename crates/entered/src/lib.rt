// A list of entries as it is handed in, in columns of m places: is it well formed, and no value too long? It stands apart
// from `entries`, which replaces a range by such a list, so that a change in one need not prove the other again.
#![tactic(auto)]

ghost use Rattle.entered.specs.Entered.{Checked};

use limits::VALUE_MAX;

// What is wrong with a list: some value is too long, or it is not well formed.
#[derive(Clone, Copy, Debug, PartialEq, Eq)]
pub enum Refused {
    TooLong,
    Malformed,
}

// Is the list well formed, and no value too long?
pub fn check(ks: &[u64], ats: &[u64], ls: &[u64], m: usize, bytes: &[u8]) -> Result<(), Refused>
    ensures { Checked ks.now ats.now ls.now bytes.now m result }
{
    if !columns::rises(ks, m) || !strings::inside(ats, ls, m, bytes.len()) {
        return Err(Refused::Malformed);
    }
    if !strings::none_longer(ls, m, VALUE_MAX) {
        return Err(Refused::TooLong);
    }
    Ok(())
}
