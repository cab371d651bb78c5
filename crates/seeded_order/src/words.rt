//! Words by their numbers.
ghost use Rattle.std.specs.Prelude.{◌≡◌};
ghost use Rattle.seeded_order.specs.Words.{after, generator, word_of};

use rand_core::utils::NextWord;
use rand_pcg::Pcg64;

// The generator that gives word number i next.
pub(crate) fn words_from(seed: u64, stream: u64, i: u64) -> Pcg64
    ensures { result ≡ after (generator seed stream) i }
{
    let mut words = Pcg64::new(u128::from(seed), u128::from(stream));
    words.advance(u128::from(i));
    words
}

/// Word number i, counted from 0, of the generator `Pcg64::new(seed, stream)`.
///
/// Takes a logarithmic number of steps.
pub fn word(seed: u64, stream: u64, i: u64) -> u64
    ensures { result ≡ word_of seed stream i }
{
    words_from(seed, stream, i).next_word()
}
