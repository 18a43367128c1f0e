ghost use Rattle.std.specs.Prelude.{◌≡◌, length, IfOk};
ghost use Rattle.er_pair.specs.Order.{seed_words, AreKeys};

use rand_chacha::ChaCha20Rng;
use rand_core::SeedableRng;
use rand_core::utils::NextWord;
use std::alloc::{AllocError, Global};

/// The first words of the ChaCha20 stream (RFC 8439) under a key of 32 bytes, stream 0, from place 0.
pub fn keys(alloc: Global, seed: &[u8; 32], count: usize) -> Result<Vec<u32>, AllocError>
    ensures count { IfOk result (λ words. length words.items ≡ count) }
    ensures words { IfOk result (λ words. AreKeys words.items (seed_words seed.now)) }
{
    let mut rng = ChaCha20Rng::from_seed(*seed);
    let mut words = Vec::with_capacity(alloc, count)?;
    for _place in 0..count {
        words.push(rng.next_word())?;
    }
    Ok(words)
}
