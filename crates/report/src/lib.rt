// The text that the programs print, written into lent bytes: a line an ask, by the words of its block, or one line for a refusal or a judgement.
#![tactic(auto)]

ghost use Rattle.std.specs.Prelude.{◌≡◌, [], ◌∷◌, ◌+◌, ◌*◌, ◌%◌, ◌<◌, ◌≤◌, length};
ghost use Rattle.model.specs.Lines.{digits_to, number_text, words_text, schedule_text, mark_text, best_text, block_text, line_text, lines_text};
ghost use Rattle.model.specs.Lines.{refusal_text, sound_text, rule_text};
ghost use Rattle.shape.specs.Shape.{runs_at, block_size};
ghost use Rattle.report.specs.Lengths.{STARTS, SCHEDULE, MARK, BLOCK, LINE, TEXT};
ghost use Rattle.report.specs.Parts.{starts_text, spent_text};
ghost use Rattle.report.specs.Put.{Put, Whole, Listed};

use shape::{COST_PLACE, START_PLACE};

// The most bytes that a line takes.
pub const LINE: usize = 1831;

// 2^16: the bytes to be lent, in which the lines of 32 asks have room.
pub const TEXT: usize = 65536;

// ---- bytes

// One byte.
fn put_byte(text: &mut [u8], at: usize, b: u8) -> usize
    requires { at < length text.old }
    ensures { Put text.old text.new at result 1 (b ∷ []) }
{
    text[at] = b;
    at + 1
}

// Bytes as they are.
fn put_bytes(text: &mut [u8], at: usize, s: &[u8]) -> usize
    requires { at + length s.now ≤ length text.old }
    ensures { Put text.old text.new at result (length s.now) s.now }
{
    let end = at + s.len();
    text[at..end].copy_from_slice(s);
    end
}

// ---- numbers

// The last digit of a number as a character.
fn digit(x: u64) -> u8
    ensures { result ≡ 48 + x % 10 }
{
    48 + (x % 10) as u8
}

// The digits of a number, n at most.
fn put_digits(text: &mut [u8], at: usize, x: u64, n: usize) -> usize
    requires { at + n ≤ length text.old }
    ensures { Put text.old text.new at result n (digits_to n x) }
{
    if n == 0 {
        return at;
    }
    if x < 10 {
        return put_byte(text, at, digit(x));
    }
    let next = put_digits(text, at, x / 10, n - 1);
    put_byte(text, next, digit(x))
}

// A space and a number.
fn put_number(text: &mut [u8], at: usize, x: u64) -> usize
    requires { at + 21 ≤ length text.old }
    ensures { Put text.old text.new at result 21 (number_text x) }
{
    let next = put_byte(text, at, 32);
    put_digits(text, next, x, 20)
}

// The n words from a place on, each behind a space.
fn put_words(text: &mut [u8], at: usize, answers: &[u32], place: usize, n: usize) -> usize
    requires { (at + 21 * n ≤ length text.old) × (place + n ≤ length answers.now) }
    ensures { Put text.old text.new at result (21 * n) (words_text answers.now place n) }
{
    let mut next = at;
    for i in 0..n {
        next = put_number(text, next, u64::from(answers[place + i]));
    }
    next
}

// ---- the line of an ask, by its block of u units and w weeks at place b

// The cost and the starts.
fn put_starts(text: &mut [u8], at: usize, answers: &[u32], b: usize, u: usize) -> usize
    requires { (u ≤ 16) × (b + runs_at u ≤ length answers.now) × (at + STARTS ≤ length text.old) }
    ensures { Put text.old text.new at result STARTS (starts_text answers.now b u) }
{
    let cost = put_number(text, at, u64::from(answers[b + COST_PLACE]));
    let starts = put_bytes(text, cost, b" starts");
    put_words(text, starts, answers, b + START_PLACE, u)
}

// The cost, the starts and the run numbers.
fn put_schedule(text: &mut [u8], at: usize, answers: &[u32], b: usize, u: usize, w: usize) -> usize
    requires { Whole (length answers.now) b u w × (at + SCHEDULE ≤ length text.old) }
    ensures { Put text.old text.new at result SCHEDULE (schedule_text answers.now b u w) }
{
    let run = put_starts(text, at, answers, b, u);
    let runs = put_bytes(text, run, b" run");
    put_words(text, runs, answers, b + shape::runs_at(u), w)
}

// The mark, its missing starts 0.
fn put_mark(text: &mut [u8], at: usize, answers: &[u32], b: usize, u: usize, w: usize) -> usize
    requires { Whole (length answers.now) b u w × (at + MARK ≤ length text.old) }
    ensures { Put text.old text.new at result MARK (mark_text answers.now b u w) }
{
    let starts = put_bytes(text, at, b" mark");
    put_words(text, starts, answers, b + shape::mark_at(u, w), u)
}

// A best schedule before a mark.
fn put_best(text: &mut [u8], at: usize, answers: &[u32], b: usize, u: usize, w: usize) -> usize
    requires { Whole (length answers.now) b u w × (at + BLOCK ≤ length text.old) }
    ensures { Put text.old text.new at result BLOCK (best_text answers.now b u w) }
{
    let best = put_bytes(text, at, b" best");
    let mark = put_schedule(text, best, answers, b, u, w);
    put_mark(text, mark, answers, b, u, w)
}

// A mark alone.
fn put_spent(text: &mut [u8], at: usize, answers: &[u32], b: usize, u: usize, w: usize) -> usize
    requires { Whole (length answers.now) b u w × (at + BLOCK ≤ length text.old) }
    ensures { Put text.old text.new at result BLOCK (spent_text answers.now b u w) }
{
    let spent = put_bytes(text, at, b" spent");
    put_mark(text, spent, answers, b, u, w)
}

// What the ask is told, by its status.
fn put_block(text: &mut [u8], at: usize, answers: &[u32], b: usize, u: usize, w: usize) -> usize
    requires { Whole (length answers.now) b u w × (at + BLOCK ≤ length text.old) }
    ensures { Put text.old text.new at result BLOCK (block_text answers.now b u w) }
{
    let status = answers[b];
    if status == 1 {
        let plan = put_bytes(text, at, b" plan");
        return put_schedule(text, plan, answers, b, u, w);
    }
    if status == 2 {
        return put_bytes(text, at, b" none");
    }
    if status == 3 {
        return put_best(text, at, answers, b, u, w);
    }
    put_spent(text, at, answers, b, u, w)
}

// The line of ask k, from 0.
fn put_line(text: &mut [u8], at: usize, answers: &[u32], k: usize, u: usize, w: usize) -> usize
    requires { Whole (length answers.now) (k * block_size u w) u w × (at + LINE ≤ length text.old) × (k < 32) }
    ensures { Put text.old text.new at result LINE (line_text answers.now k u w) }
{
    let ask = put_bytes(text, at, b"ask");
    let number = put_number(text, ask, (k + 1) as u64);
    let block = put_block(text, number, answers, k * shape::block_size(u, w), u, w);
    put_byte(text, block, 10)
}

// ---- all that is printed for an input

// The lines of all asks.
pub fn put_lines(text: &mut [u8], answers: &[u32], asks: usize, u: usize, w: usize) -> usize
    requires { Listed (length answers.now) asks u w × (TEXT ≤ length text.old) }
    ensures { Put text.old text.new 0 result (LINE * asks) (lines_text answers.now asks u w) }
{
    let mut next = 0;
    for k in 0..asks {
        next = put_line(text, next, answers, k, u, w);
    }
    next
}

// The line of a refusal.
pub fn put_refusal(text: &mut [u8], number: u32, place: usize) -> usize
    requires { 50 ≤ length text.old }
    ensures { Put text.old text.new 0 result 50 (refusal_text number place) }
{
    let refused = put_bytes(text, 0, b"refused");
    let first = put_number(text, refused, u64::from(number));
    let second = put_number(text, first, place as u64);
    put_byte(text, second, 10)
}

// The line of a sound grid.
pub fn put_sound(text: &mut [u8], cost: u64) -> usize
    requires { 27 ≤ length text.old }
    ensures { Put text.old text.new 0 result 27 (sound_text cost) }
{
    let word = put_bytes(text, 0, b"sound");
    let number = put_number(text, word, cost);
    put_byte(text, number, 10)
}

// The line of a broken formula.
pub fn put_rule(text: &mut [u8], formula: u32) -> usize
    requires { 26 ≤ length text.old }
    ensures { Put text.old text.new 0 result 26 (rule_text formula) }
{
    let word = put_bytes(text, 0, b"rule");
    let number = put_number(text, word, u64::from(formula));
    put_byte(text, number, 10)
}
