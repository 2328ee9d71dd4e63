//! The words of a key.

ghost use Rattle.std.specs.Prelude.{◌≡◌, ◌+◌, ◌*◌, ◌<◌, ◌^◌};
ghost use Rattle.rand_chacha.specs.ChaCha.{word_at};
ghost use Rattle.sampling.specs.Words.{words_at, words_after};

use rand_chacha::ChaCha20Rng;
use rand_core::SeedableRng;
use rand_core::utils::NextWord;

/// The words of a key, from the first one on.
pub(crate) fn words_of(key: &[u8; 32]) -> ChaCha20Rng
    ensures { result ≡ words_at key.now 0 }
{
    ChaCha20Rng::from_seed(*key)
}

/// The next word.
pub(crate) fn next_word(words: &mut ChaCha20Rng) -> u32
    requires { words.old.word_pos + 1 < 2 ^ 68 }
    ensures value { result ≡ word_at 10 words.old.key words.old.stream words.old.word_pos }
    ensures after { words.new ≡ words_after words.old 1 }
{
    words.next_word()
}

/// The number that the next two words make, the lower half first.
pub(crate) fn next_number(words: &mut ChaCha20Rng) -> u64
    requires { words.old.word_pos + 2 < 2 ^ 68 }
    ensures value { result ≡ word_at 10 words.old.key words.old.stream words.old.word_pos
        + word_at 10 words.old.key words.old.stream (words.old.word_pos + 1) * 2 ^ 32 }
    ensures after { words.new ≡ words_after words.old 2 }
{
    let low = u64::from(next_word(words));
    let high = u64::from(next_word(words));
    low + (high << 32)
}
