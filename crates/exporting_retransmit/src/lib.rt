// The waiting messages go out again, from a host whose numbers stand in lent words.
// C lends plain slices, so they stand side by side here and are no parts yet.
#![tactic(auto)]

ghost use Rattle.exporting_retransmit.specs.Answers.{Repeating};

use numbers::WORDS;

// Answers how many places stand in `out`, or the largest number.
pub fn retransmit(counts: &[u64], places: &[u64], numbers: &[u64], out: &mut [u64]) -> u64
    ensures { Repeating counts.now places.now numbers.now out.old result out.new }
{
    if numbers.len() < WORDS {
        return codes::NO_PLACES;
    }
    let k = numbers::load(numbers);
    codes::repeated(repeating::retransmit(counts, places, k, out))
}
