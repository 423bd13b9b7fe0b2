ghost use Rattle.std.specs.Prelude.{◌≡◌, IfOk, vec_items};
ghost use Rattle.words.specs.Words.{bytes_of as bytes_in};

use std::alloc::{AllocError, Global};

/// The bytes of words, one after another, each word's lowest first.
pub fn bytes_of(heap: Global, words: &[u32]) -> Result<Vec<u8>, AllocError>
    ensures { IfOk result (λ file. vec_items file ≡ bytes_in words.now) }
{
    let mut file = Vec::new(heap);
    for word in words {
        file.extend_from_slice(&word.to_le_bytes())?;
    }
    Ok(file)
}
