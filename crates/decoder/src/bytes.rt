// Bytes to words: four bytes are a word, lowest first.
ghost use Rattle.std.specs.Prelude.{◌≡◌, ◌+◌, ◌<◌, length};
ghost use Rattle.model.specs.Bytes.{word_from, load_of, loaded_into};
ghost use Rattle.decoder.specs.Answers.{figure_of};

use crate::{Fault, Refusal};

// The word of the four bytes from place q on, lowest first.
#[tactic(auto, unfolding(model::specs::Bytes::word_from))]
pub fn word_from(bytes: &[u8], q: usize) -> u32
    requires { q + 3 < length bytes.now }
    ensures { result ≡ word_from bytes.now q }
{
    u32::from_le_bytes([bytes[q], bytes[q + 1], bytes[q + 2], bytes[q + 3]])
}

// Writes the words of the bytes into the lent words and says how many, or refuses and changes nothing.
pub fn load(bytes: &[u8], words: &mut [u32]) -> Result<usize, Refusal>
    ensures answer { figure_of result ≡ load_of bytes.now (length words.old) }
    ensures buffer { words.new ≡ loaded_into (figure_of result) bytes.now words.old }
{
    if bytes.len() % 4 != 0 {
        return Err(Fault::UnevenBytes.at(0));
    }
    let n = bytes.len() / 4;
    if words.len() < n {
        return Err(Fault::TooFewWords.at(0));
    }
    for k in 0..n {
        words[k] = word_from(bytes, k * 4);
    }
    Ok(n)
}
