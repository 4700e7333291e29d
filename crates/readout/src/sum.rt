// The sum of a list of words: from 1, and for each word w the sum h becomes (31 h + w) mod 2^32.
ghost use Rattle.std.specs.Prelude.{◌≡◌};
ghost use Rattle.readout.specs.Sums.{sum_of};

pub fn sum(words: &[u32]) -> u32
    ensures { result ≡ sum_of words.now }
{
    words
        .iter()
        .fold(1, |h: u32, &word| h.wrapping_mul(31).wrapping_add(word))
}
