// A program's input: a file's bytes up to and with the first word of kind 15, then the bytes of what is asked about the file.
#![tactic(auto)]

ghost use Rattle.std.specs.Prelude.{◌≤◌, ◌≡◌, length, take, drop};
ghost use Rattle.model.specs.Bytes.{file_end};

// How many of the bytes are the file's.
pub fn file_end(bytes: &[u8]) -> usize
    ensures { (result ≡ file_end bytes.now) × (result ≤ length bytes.now) }
{
    for k in 0..bytes.len() / 4 {
        if words::kind_of(decoder::word_from(bytes, k * 4)) == 15 {
            return k * 4 + 4;
        }
    }
    bytes.len()
}

// The first n words, or all where there are fewer.
pub fn front(words: &[u32], n: usize) -> &[u32]
    ensures { result.now ≡ take n words.now }
{
    &words[..n.min(words.len())]
}

// The words after the first n.
pub fn back(words: &[u32], n: usize) -> &[u32]
    ensures { result.now ≡ drop n words.now }
{
    &words[n.min(words.len())..]
}
