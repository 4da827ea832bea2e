// The waiting messages go out again.
ghost use Rattle.exporting_retransmit.specs.Answers.{Repeating};

// Answers how many places stand in `out`, or the largest number.
#[unsafe(no_mangle)]
pub extern "C" fn tagshards_retransmit(
    counts: &[u64],
    places: &[u64],
    numbers: &[u64],
    out: &mut [u64],
) -> u64
    ensures { Repeating counts.now places.now numbers.now out.old result out.new }
{
    exporting_retransmit::retransmit(counts, places, numbers, out)
}
