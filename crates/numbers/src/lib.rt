// A host's plain numbers in lent words: loaded before a step and stored after it.
#![tactic(auto)]

ghost use Rattle.std.specs.Prelude.{◌≡◌, ◌≤◌, length, get_or};
ghost use Rattle.numbers.specs.Words.{words, place_word, state_of};

use hosts::State;

// The words that are needed.
pub const WORDS: usize = 12;

// The word of the place.
pub const PLACE: usize = 11;

// The numbers that the words hold, if there are enough.
pub fn load(numbers: &[u64]) -> State
    ensures { words ≤ length numbers.now → result ≡ state_of numbers.now }
{
    if numbers.len() < WORDS {
        return State {
            me: 0,
            hosts: 0,
            peers: 0,
            width: 0,
            size: 0,
            bounds: 0,
            entries: 0,
            len: 0,
            from: 0,
            transfers: 0,
            turns: 0,
        };
    }
    State {
        me: numbers[0] as usize,
        hosts: numbers[1] as usize,
        peers: numbers[2] as usize,
        width: numbers[3] as usize,
        size: numbers[4] as usize,
        bounds: numbers[5] as usize,
        entries: numbers[6] as usize,
        len: numbers[7] as usize,
        from: numbers[8] as usize,
        transfers: numbers[9],
        turns: numbers[10],
    }
}

// Writes the numbers and the place of a step's datagram into the words, if there are enough.
pub fn store(numbers: &mut [u64], k: State, place: u64)
    ensures { words ≤ length numbers.old → (state_of numbers.new ≡ k) × (get_or numbers.new place_word 0 ≡ place) }
{
    if numbers.len() < WORDS {
        return;
    }
    numbers[0] = k.me as u64;
    numbers[1] = k.hosts as u64;
    numbers[2] = k.peers as u64;
    numbers[3] = k.width as u64;
    numbers[4] = k.size as u64;
    numbers[5] = k.bounds as u64;
    numbers[6] = k.entries as u64;
    numbers[7] = k.len as u64;
    numbers[8] = k.from as u64;
    numbers[9] = k.transfers;
    numbers[10] = k.turns;
    numbers[PLACE] = place;
}
