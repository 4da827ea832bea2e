// A message that stays in the room (document 01, section 5): a Delegate or a Shard does while the count of
// transfers is at its limit.
#![tactic(auto)]

ghost use Rattle.std.specs.Prelude.{◌≡◌};
ghost use Rattle.hosts.specs.declared.Done.{Done};
ghost use Rattle.staying.specs.Answers.{Many, unchanged};

use hosts::{Done, Processed, State};
use limits::TRANSFERS_LIMIT;

// A Delegate or a Shard is processed only while the count of transfers is below this.
const FEW: u64 = TRANSFERS_LIMIT - 2;

// Is the count of transfers at its limit?
pub fn many(k: State) -> bool
    ensures { Many k result }
{
    FEW <= k.transfers
}

// Nothing is done, and the room is as it was.
pub fn staying(k: State, outcome: Processed) -> Done
    ensures { result ≡ unchanged k outcome }
{
    Done { state: k, outcome }
}
