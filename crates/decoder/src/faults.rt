// Why input is turned away, and where (document 01, "Who can be turned away, and for what").
ghost use Rattle.std.specs.Prelude.{◌≡◌};
ghost use Rattle.decoder.specs.Answers.{number_of};

// The causes of document 01, in the order of their numbers.
#[derive(Clone, Copy, Debug, PartialEq, Eq)]
pub enum Fault {
    // By the file's author: a word of another kind than due, or the file ends.
    WrongKind,
    OutOfRange,
    LatestBeforeEarliest,
    BadPair,
    TooManyPairs,
    BadEnd,
    WordsAfterEnd,
    // By the asker: ask words none, odd in number, or over 64.
    AskCount,
    WrongAskKind,
    NoBudget,
    // By the judge's user.
    GridSize,
    BadCell,
    // By the lender.
    TableSize,
    AnswersTooShort,
    ScratchTooShort,
    // By the file's author, before every other: a byte count that is not a multiple of four.
    UnevenBytes,
    // By the lender, after it: too few words for the bytes, as in every call that writes a list into lent words or bytes.
    TooFewWords,
}

// A fault, and the place from 0, in its own list, of the word or byte that has it; 0 where it is no single one's.
#[derive(Clone, Copy, Debug, PartialEq, Eq)]
pub struct Refusal {
    pub fault: Fault,
    pub place: usize,
}

impl Fault {
    // The number of document 01.
    pub fn number(self) -> u32
        ensures { result ≡ number_of self }
    {
        match self {
            Fault::WrongKind => 1,
            Fault::OutOfRange => 2,
            Fault::LatestBeforeEarliest => 3,
            Fault::BadPair => 4,
            Fault::TooManyPairs => 5,
            Fault::BadEnd => 6,
            Fault::WordsAfterEnd => 7,
            Fault::AskCount => 8,
            Fault::WrongAskKind => 9,
            Fault::NoBudget => 10,
            Fault::GridSize => 11,
            Fault::BadCell => 12,
            Fault::TableSize => 13,
            Fault::AnswersTooShort => 14,
            Fault::ScratchTooShort => 15,
            Fault::UnevenBytes => 16,
            Fault::TooFewWords => 17,
        }
    }

    // The refusal for this fault at a place.
    pub fn at(self, place: usize) -> Refusal
        ensures { result ≡ record { fault = self; place = place } }
    {
        Refusal { fault: self, place }
    }
}
