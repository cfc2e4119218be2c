// The stages of a plan file: what a word's kind and place settle, and how far words follow without a fault.
ghost use Rattle.std.specs.Prelude.{◌≡◌, ◌+◌, ◌-◌, ◌*◌, ◌^◌, ◌<◌, ◌≤◌, length};
ghost use Rattle.model.specs.Words.{VALUES, kind_of, kind_at, value_at, Laid, layout_of};
ghost use Rattle.model.specs.Reading.{due_at, within, window_fault, pair_fault, end_fault, value_fault, fault_for, fault_at};
ghost use Rattle.decoder.specs.Answers.{fault_number};
ghost use Rattle.decoder.specs.Stages.{Onward, as_pair, Clear, Passed};

use crate::Fault;
use model::{Layout, VALUES};

// What a word's kind and place settle: what is wrong with its value, and the place up to which words of the same kind follow that may hold
// any value from 0 to `most`. There the next stage begins.
#[derive(Clone, Copy)]
pub struct Stage {
    pub fault: Option<Fault>,
    pub most: u32,
    pub next: usize,
}

// The kind due at place q; 10 stands for a pair or the end word.
#[tactic(auto, using(sums::proofs::Tests::tests), unfolding(model::specs::Reading::due_at))]
fn due_at(l: Layout, q: usize) -> usize
    ensures { result ≡ due_at l q }
{
    if q < 3 {
        q + 1
    } else if q < l.triples {
        4
    } else if q < l.maints {
        5 + (q - l.triples) % 3
    } else if q < l.runnings {
        8
    } else if q < l.offs {
        9
    } else if q < l.pairs {
        0
    } else {
        10
    }
}

// Outside lo to hi.
#[tactic(auto, using(sums::proofs::Tests::tests), unfolding(model::specs::Reading::within))]
fn range(lo: usize, hi: usize, v: usize) -> Option<Fault>
    ensures { fault_number result ≡ within lo hi v }
{
    if v < lo || hi < v {
        Some(Fault::OutOfRange)
    } else {
        None
    }
}

// A window: an end outside the season, then the latest before the earliest.
#[tactic(auto, using(sums::proofs::Tests::tests), unfolding(model::specs::Reading::window_fault))]
fn window_fault(l: Layout, v: usize) -> Option<Fault>
    ensures { fault_number result ≡ window_fault l v }
{
    let earliest = v / 64;
    let latest = v % 64;
    if earliest < 1 || l.weeks < earliest || latest < 1 || l.weeks < latest {
        Some(Fault::OutOfRange)
    } else if latest < earliest {
        Some(Fault::LatestBeforeEarliest)
    } else {
        None
    }
}

// A pair after a word of value prev: no pair of two units, or not above the one before; then a 121st.
#[tactic(auto, using(sums::proofs::Tests::tests), unfolding(model::specs::Reading::pair_fault))]
fn pair_fault(l: Layout, q: usize, prev: usize, v: usize) -> Option<Fault>
    ensures { fault_number result ≡ pair_fault l q prev v }
{
    let a = v / 32;
    let b = v % 32;
    if a < 1 || b <= a || l.units < b || (l.pairs < q && v <= prev) {
        Some(Fault::BadPair)
    } else if q.saturating_sub(l.pairs) < 120 {
        None
    } else {
        Some(Fault::TooManyPairs)
    }
}

// The end word says how many words stand before it.
#[tactic(auto, using(sums::proofs::Tests::tests), unfolding(model::specs::Reading::end_fault))]
fn end_fault(q: usize, v: usize) -> Option<Fault>
    ensures { fault_number result ≡ end_fault q v }
{
    if v == q { None } else { Some(Fault::BadEnd) }
}

// A stage of one word: the next begins after it.
fn single_word(fault: Option<Fault>, q: usize) -> Stage
    requires { q + 1 < 2 ^ 64 }
    ensures { (result.fault ≡ fault) × (result.most ≡ 0) × (result.next ≡ q + 1) }
{
    Stage {
        fault,
        most: 0,
        next: q + 1,
    }
}

// A stage of words that may hold anything from 0 to most, up to the place next.
#[tactic(auto, using(sums::proofs::Tests::tests), unfolding(model::specs::Reading::within))]
fn section(most: u32, next: usize, v: usize) -> Stage
    ensures { (fault_number result.fault ≡ within 0 most v) × (result.most ≡ most) × (result.next ≡ next) }
{
    Stage {
        fault: range(0, most as usize, v),
        most,
        next,
    }
}

// A match over the kinds and ranges of kinds selects the test of the value and the next stage (D33).
#[tactic(auto, using(sums::proofs::Tests::tests, crate::proofs::StageLaws::onwards), unfolding(model::specs::Reading::value_fault))]
fn stage_of(l: Layout, q: usize, prev: usize, k: usize, v: usize) -> Stage
    requires laid { Laid l }
    requires q_bound { q + 1 < 2 ^ 64 }
    ensures test { fault_number result.fault ≡ value_fault l q prev k v }
    ensures onward { Onward l q k result.most result.next }
{
    match k {
        0 => section(250000, l.pairs, v),
        1 => single_word(range(1, 52, v), q),
        2..=3 => single_word(range(1, 16, v), q),
        4 => section(16000000, l.triples, v),
        5 => single_word(range(0, 1000000, v), q),
        6 => single_word(window_fault(l, v), q),
        7 => single_word(range(1, l.weeks, v), q),
        8 => section(250000, l.runnings, v),
        9 => section(250000, l.offs, v),
        10 => single_word(pair_fault(l, q, prev, v), q),
        15 => single_word(end_fault(q, v), q),
        _ => single_word(Some(Fault::WrongKind), q),
    }
}

// The kind first, then the value.
#[tactic(auto, using(sums::proofs::Tests::tests), unfolding(model::specs::Reading::fault_for, model::specs::Reading::fits_due))]
fn stage_for(l: Layout, q: usize, prev: usize, k: usize, v: usize) -> Stage
    requires laid { Laid l }
    requires q_bound { q + 1 < 2 ^ 64 }
    ensures test { fault_number result.fault ≡ fault_for l q prev k v }
    ensures onward { Onward l q k result.most result.next }
{
    let due = due_at(l, q);
    if k == due || (due == 10 && k == 15) {
        stage_of(l, q, prev, k, v)
    } else {
        single_word(Some(Fault::WrongKind), q)
    }
}

// The value of the word before place q; before the first there is none, and no test asks for it.
fn value_before(words: &[u32], q: usize) -> usize
    ensures { result ≡ value_at words.now (q - 1) }
{
    words::value_at(words, q.saturating_sub(1))
}

// The stage of the word at place q.
pub fn stage_at(words: &[u32], l: Layout, q: usize) -> Stage
    requires { (l ≡ layout_of words.now) × (q < length words.now) }
    ensures test { fault_number result.fault ≡ fault_at words.now q }
    ensures onward { Onward l q (kind_at words.now q) result.most result.next }
{
    let word = words[q];
    let prev = value_before(words, q);
    stage_for(l, q, prev, words::kind_of(word), words::value_of(word))
}

// The word of value 0 and the same kind.
fn kind_floor(word: u32) -> u32
    ensures { (result ≡ kind_of word * VALUES) × (result ≤ 15 * VALUES) }
{
    word / VALUES as u32 * VALUES as u32
}

// Passes the word at place q and all that follow in its stage and range. A word's distance from the kind's word of value 0, modulo 2^32,
// settles kind and range in one comparison.
fn pass(words: &[u32], q: usize, s: Stage) -> usize
    requires clear { Clear words.now q s.most s.next }
    requires q_in_bounds { (q < length words.now) × (s.most < VALUES) }
    ensures { Passed words.now q result }
{
    let most = s.most;
    let low = kind_floor(words[q]);
    let end = s.next.min(words.len());
    let mut p = q + 1;
    // Not a `for`: the end may lie before the next word, and then that word's place is the answer.
    while p < end {
        let distance = words[p].wrapping_sub(low);
        if most < distance {
            return p;
        }
        p += 1;
    }
    p
}

// The fault of a word that is to be one more pair at place p.
fn fault_as_pair(l: Layout, p: usize, prev: usize, word: u32) -> Option<Fault>
    ensures { fault_number result ≡ as_pair l p prev word }
{
    if words::kind_of(word) != 10 {
        return Some(Fault::WrongKind);
    }
    pair_fault(l, p, prev, words::value_of(word))
}

// Passes the word at place q, among the pairs, and the right pairs that follow it.
fn pass_pairs(words: &[u32], l: Layout, q: usize) -> usize
    requires { (l ≡ layout_of words.now) × (q < length words.now) × (l.pairs ≤ q) }
    ensures { Passed words.now q result }
{
    let mut prev = words::value_of(words[q]);
    for p in q + 1..words.len() {
        let word = words[p];
        if fault_as_pair(l, p, prev, word).is_some() {
            return p;
        }
        prev = words::value_of(word);
    }
    words.len()
}

// Passes the word at place q and those that follow without a fault, as far as one loop can tell (D34).
pub fn pass_stage(words: &[u32], l: Layout, q: usize, s: Stage) -> usize
    requires clear { Clear words.now q s.most s.next }
    requires l_value { (l ≡ layout_of words.now) × (q < length words.now) × (s.most < VALUES) }
    ensures { Passed words.now q result }
{
    if l.pairs <= q {
        return pass_pairs(words, l, q);
    }
    pass(words, q, s)
}
