// Words read, or refused with the first fault and its place. `bytes` makes words of bytes, `stages` has what a word's kind and place
// settle, `faults` why input is turned away, and here is the reader: start at `read`.
#![tactic(auto)]

ghost use Rattle.std.specs.Prelude.{◌≡◌, ◌-◌, ◌<◌, true, false, length};
ghost use Rattle.model.specs.Reading.{fault_at, read_from, read_of};
ghost use Rattle.decoder.specs.Stages.{open_at, Passed};
ghost use Rattle.decoder.specs.Answers.{fault_number, verdict_of};

pub use bytes::{load, word_from};
pub use faults::{Fault, Refusal};

mod bytes;
mod faults;
mod stages;

// What is wrong with the word at place q.
fn fault_at(words: &[u32], q: usize) -> Option<Fault>
    requires { q < length words.now }
    ensures { fault_number result ≡ fault_at words.now q }
{
    stages::stage_at(words, instance::layout_of(words), q).fault
}

// Whether a reader goes on from place q: a word stands there, without a fault, and it is not the end word.
fn open_at(words: &[u32], q: usize) -> bool
    ensures { result ≡ open_at words.now q }
{
    q < words.len() && fault_at(words, q).is_none() && words::kind_of(words[q]) != 15
}

// The place to which a reader goes on from place q: behind the word there and those that follow in its stage without a fault.
fn next_at(words: &[u32], q: usize) -> usize
    requires { open_at words.now q ≡ true }
    ensures { Passed words.now q result }
{
    let l = instance::layout_of(words);
    let s = stages::stage_at(words, l, q);
    stages::pass_stage(words, l, q, s)
}

// The verdict of a reader that has come to place q and does not go on (D9).
fn verdict_at(words: &[u32], q: usize) -> Result<(), Refusal>
    requires { open_at words.now q ≡ false }
    ensures { verdict_of result ≡ read_from words.now q (length words.now - q) }
{
    if words.len() <= q {
        return Err(Fault::WrongKind.at(q));
    }
    if let Some(fault) = fault_at(words, q) {
        return Err(fault.at(q));
    }
    if q + 1 == words.len() {
        return Ok(());
    }
    Err(Fault::WordsAfterEnd.at(q + 1))
}

// A reader: the lent words, and the place at which it stands. Its methods only take it apart; the functions above, on slice and number, do
// the work (D83).
#[derive(Clone, Copy)]
struct Reader<'a> {
    words: &'a [u32],
    at: usize,
}

impl<'a> Reader<'a> {
    // A reader at the first word.
    fn new(words: &'a [u32]) -> Reader<'a>
        ensures { (result.words ≡ words.entry) × (result.at ≡ 0) }
    {
        Reader { words, at: 0 }
    }

    // Whether it goes on, by what stands at its place.
    fn goes_on(self) -> bool
        ensures { result ≡ open_at self.entry.words.now self.entry.at }
    {
        open_at(self.words, self.at)
    }

    // The reader behind the word at which it stood, and those that follow in its stage.
    fn step(self) -> Reader<'a>
        requires { open_at self.words.now self.at ≡ true }
        ensures { (result.words ≡ self.entry.words) × Passed self.entry.words.now self.entry.at result.at }
    {
        Reader {
            words: self.words,
            at: next_at(self.words, self.at),
        }
    }

    // The place at which it stands.
    fn position(self) -> usize
        ensures { result ≡ self.entry.at }
    {
        self.at
    }
}

// The verdict on any words as a plan file: a reader walks from the first word to the end word, or to a fault.
pub fn read(words: &[u32]) -> Result<(), Refusal>
    ensures { verdict_of result ≡ read_of words.now }
{
    let mut r = Reader::new(words);
    while r.goes_on() {
        r = r.step();
    }
    verdict_at(words, r.position())
}
