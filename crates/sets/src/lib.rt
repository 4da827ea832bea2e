// The tests on the value of a Set (document 01, section 5): the room test looks at its length alone, the
// processing also whether it stands in the datagram.
#![tactic(auto)]

ghost use Rattle.sets.specs.Answers.{IsSound, TooLong};

use format::Part;
use limits::VALUE_MAX;

// Does the value stand in the datagram, and is it not too long?
pub fn sound(s: &[u8], v: Option<Part>) -> bool
    ensures { IsSound s.now v result }
{
    match v {
        None => true,
        Some(part) => {
            if s.len() < part.at || s.len() - part.at < part.len {
                return false;
            }
            part.len <= VALUE_MAX
        }
    }
}

// Is the value longer than a table keeps?
pub fn too_long(v: Option<Part>) -> bool
    ensures { TooLong v result }
{
    match v {
        None => false,
        Some(part) => VALUE_MAX < part.len,
    }
}
