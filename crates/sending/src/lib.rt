// Sending: a message is written into a free place of the mail, and waits there until it is acknowledged.
// Here is what that means (specs/Answers.antt) and where a place lies; `replying`, `redirecting` and
// `transferring` send the three kinds of message that a host sends.
#![tactic(auto)]

ghost use Rattle.sending.specs.Answers.{AfterSlot};

// Where in so many bytes of mail does place p lie, from one byte up to another? None: there are not so many.
pub fn lies(mail: usize, size: usize, p: usize) -> Option<(usize, usize)>
    ensures { AfterSlot mail size p result }
{
    if size == 0 || mail / size <= p {
        return None;
    }
    let from = p * size;
    Some((from, from + size))
}
