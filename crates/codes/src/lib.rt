// Answers as plain numbers, for callers that have no enums: a refusal's number and its place, the number given, a judgement and a quote as one
// number each. A refusal may be any that tells two numbers (`Refused`): those of this repository, or a pair of numbers of whatever cause.
#![tactic(auto)]

ghost use Rattle.std.specs.Prelude.{◌≡◌, ℕ};
ghost use Rattle.codes.specs.Codes.{refused_by, refused_at, figure_refused_by, given, judged_code, judged_place, quoted_code};
ghost use Rattle.codes.specs.Told.{number_in, place_in, first_of, second_of, verdict_told, figure_told, judgement_told, quote_told};

use checker::Judgement;
use decoder::Refusal;
use quotes::Quote;

// What a call is turned away with: a number and a place.
pub trait Refused {
    ghost number_is: { Self → ℕ };

    ghost place_is: { Self → ℕ };

    fn number(self) -> u32
        ensures { result ≡ number_is self };

    fn place(self) -> usize
        ensures { result ≡ place_is self };
}

impl Refused for Refusal {
    ghost number_is = { number_in };

    ghost place_is = { place_in };

    fn number(self) -> u32 {
        self.fault.number()
    }

    fn place(self) -> usize {
        self.place
    }
}

// Any number, and a place.
impl Refused for (u32, usize) {
    ghost number_is = { first_of };

    ghost place_is = { second_of };

    fn number(self) -> u32 {
        self.0
    }

    fn place(self) -> usize {
        self.1
    }
}

// The number of a verdict's refusal.
#[tactic(auto, unfolding(crate::specs::Codes::refused_by))]
pub fn refusal_number<R: Refused + Copy>(v: Result<(), R>) -> u32
    ensures { result ≡ refused_by (verdict_told R.number_is R.place_is v) }
{
    match v {
        Ok(()) => 0,
        Err(refusal) => refusal.number(),
    }
}

// The place of a verdict's refusal.
#[tactic(auto, unfolding(crate::specs::Codes::refused_at))]
pub fn refusal_place<R: Refused + Copy>(v: Result<(), R>) -> usize
    ensures { result ≡ refused_at (verdict_told R.number_is R.place_is v) }
{
    match v {
        Ok(()) => 0,
        Err(refusal) => refusal.place(),
    }
}

// The number of a reply's refusal.
#[tactic(auto, unfolding(crate::specs::Codes::figure_refused_by))]
pub fn figure_refusal<R: Refused + Copy>(reply: Result<usize, R>) -> u32
    ensures { result ≡ figure_refused_by (figure_told R.number_is R.place_is reply) }
{
    match reply {
        Ok(_) => 0,
        Err(refused) => refused.number(),
    }
}

// The number that a reply gives, 0 where it is a refusal.
#[tactic(auto, unfolding(crate::specs::Codes::given))]
pub fn number_given<R: Refused + Copy>(reply: Result<usize, R>) -> usize
    ensures { result ≡ given (figure_told R.number_is R.place_is reply) }
{
    match reply {
        Ok(n) => n,
        Err(_) => 0,
    }
}

// A judgement as one number (D36).
#[tactic(auto, unfolding(crate::specs::Codes::judged_code))]
pub fn judgement_code<R: Refused + Copy>(judged: Result<Judgement, R>) -> u64
    ensures { result ≡ judged_code (judgement_told R.number_is R.place_is judged) }
{
    match judged {
        Ok(Judgement::Sound(cost)) => cost,
        Ok(Judgement::Breaks(formula)) => 4294967296 + u64::from(formula),
        Err(refusal) => 8589934592 + u64::from(refusal.number()),
    }
}

// The place of a judgement's refusal.
#[tactic(auto, unfolding(crate::specs::Codes::judged_place))]
pub fn judgement_place<R: Refused + Copy>(judged: Result<Judgement, R>) -> usize
    ensures { result ≡ judged_place (judgement_told R.number_is R.place_is judged) }
{
    match judged {
        Ok(Judgement::Sound(_) | Judgement::Breaks(_)) => 0,
        Err(refused) => refused.place(),
    }
}

// A quote as one number.
#[tactic(auto, unfolding(crate::specs::Codes::quoted_code))]
pub fn quote_code<R: Refused + Copy>(quoted: Result<Option<Quote>, R>) -> u64
    ensures { result ≡ quoted_code (quote_told R.number_is R.place_is quoted) }
{
    match quoted {
        Ok(None) => 4611686018427387904,
        Ok(Some(quote)) => u64::from(quote.cost) * 4294967296 + u64::from(quote.number),
        Err(refusal) => 9223372036854775808 + u64::from(refusal.number()),
    }
}
