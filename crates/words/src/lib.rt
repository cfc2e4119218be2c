// A word's kind and value.
#![tactic(auto)]

ghost use Rattle.std.specs.Prelude.{◌≡◌, ◌<◌};
ghost use Rattle.model.specs.Words.{VALUES, kind_of, value_of, value_at};

use model::VALUES;

// The top 4 bits.
pub fn kind_of(word: u32) -> usize
    ensures { (result ≡ kind_of word) × (result < 16) }
{
    word as usize / VALUES
}

// The low 28 bits.
pub fn value_of(word: u32) -> usize
    ensures { (result ≡ value_of word) × (result < VALUES) }
{
    word as usize % VALUES
}

// The value of the word at a place, 0 past the end.
pub fn value_at(words: &[u32], q: usize) -> usize
    ensures { (result ≡ value_at words.now q) × (result < VALUES) }
{
    if q < words.len() {
        return value_of(words[q]);
    }
    0
}
