// The table of nogoods (document 01: conflicts) in lent words: dead ends noted, the end of a walk noted, a nogood recalled that a walk's starts meet.
// Units count from 0, in words from 1; starts count from 1.
#![tactic(auto)]

ghost use Rattle.std.specs.Prelude.{◌≡◌, ◌+◌, ◌*◌, ◌-◌, ◌<◌, ◌≤◌, length, replicate, IfSome, count_by};
ghost use Rattle.std.specs.List.{range_with_len};
ghost use Rattle.sums.specs.NumSet.{has};
ghost use Rattle.sums.specs.Table.{entry};
ghost use Rattle.model.specs.Words.{◌∶◌};
ghost use Rattle.model.specs.Nogood.{MOST_LIMIT, choice_words, nogood_words};
ghost use Rattle.lent.specs.Splice.{spliced};
ghost use Rattle.nogood.specs.Noting.{choice_of, choices_of, nogood_for, noted_used, noted, end_used, ended};
ghost use Rattle.nogood.specs.Recall.{CHOICE_RADIX, UnitMet, Match, Recalled};

// Empties the table, whatever it held.
pub fn clear(table: &mut [u32])
    ensures { table.new ≡ replicate (length table.old) 0 }
{
    lent::clear(table)
}

// The value of a choice is unit times this and start, units from 1.
pub const CHOICE_RADIX: usize = 64;

// Dead ends leave so many words of the table free, for the ends of walks.
const KEPT_FREE: usize = 32;

// Besides its choices a dead end needs room for its bound, and what stays free.
const NOTE_ROOM: usize = 1 + KEPT_FREE;

// A start as a number that places are counted in.
fn widen_start(start: u8) -> usize
    ensures { (result ≡ start) × (result < 256) }
{
    start as usize
}

// The start of unit i.
fn start_of(starts: [u8; 16], i: usize) -> usize
    requires { i < 16 }
    ensures { (result ≡ entry starts i) × (result < 256) }
{
    widen_start(starts[i])
}

// How many units below k the set has.
fn size(b: u32, k: usize) -> usize
    requires { k ≤ 16 }
    ensures { result ≡ count_by (has b) (range_with_len 0 k) }
{
    (0..k).filter(|q| sets::has(b, *q)).count()
}

// The word of kind 13, a bound, and value 0.
const BOUND: u32 = 3489660928;

// The word of kind 14, a choice, and value 0.
const CHOICE: usize = 3758096384;

// The word of a bound: no schedule costs less than the limit.
fn bound_word(limit: u64) -> u32
    requires { (0 < limit) × (limit ≤ MOST_LIMIT) }
    ensures { result ≡ 13 ∶ (limit - 1) }
{
    BOUND + (limit - 1) as u32
}

// The word of unit q's choice.
fn choice_word(q: usize, start: usize) -> u32
    requires { (q < 16) × (start < 256) }
    ensures { result ≡ 14 ∶ ((q + 1) * CHOICE_RADIX + start) }
{
    (CHOICE + (q + 1) * CHOICE_RADIX + start) as u32
}

// Writes unit q's choice at a place, where the set has the unit. Answers the place after it.
fn note_unit(table: &mut [u32], at: usize, starts: [u8; 16], q: usize, b: u32) -> usize
    requires { (at < length table.old) × (q < 16) }
    ensures place { result ≡ at + length (choice_of (entry starts) (has b) q) }
    ensures words { table.new ≡ spliced at (choice_words (choice_of (entry starts) (has b) q)) table.old }
{
    if sets::has(b, q) {
        let start = start_of(starts, q);
        table[at] = choice_word(q, start);
        return at + 1;
    }
    at
}

// Writes the choices of the units of b below k from a place on. Answers the place after them.
fn write_choices(table: &mut [u32], from: usize, starts: [u8; 16], k: usize, b: u32) -> usize
    requires { (from + k ≤ length table.old) × (k ≤ 16) }
    ensures place { result ≡ from + length (choices_of (entry starts) (has b) k) }
    ensures words { table.new ≡ spliced from (choice_words (choices_of (entry starts) (has b) k)) table.old }
{
    let mut at = from;
    for q in 0..k {
        at = note_unit(table, at, starts, q, b);
    }
    at
}

// Writes the nogood of the units of b below k.
fn write(table: &mut [u32], used: usize, starts: [u8; 16], k: usize, b: u32, limit: u64) -> usize
    requires { (used + 1 + k ≤ length table.old) × (k ≤ 16) × (0 < limit) × (limit ≤ MOST_LIMIT) }
    ensures place { result ≡ used + length (nogood_words (nogood_for (entry starts) (has b) k limit)) }
    ensures words { table.new ≡ spliced used (nogood_words (nogood_for (entry starts) (has b) k limit)) table.old }
{
    table[used] = bound_word(limit);
    write_choices(table, used + 1, starts, k, b)
}

// Notes the dead end of the units of b below k, who share the blame, where it has 1 to 3 choices and leaves the last words free. Answers how
// many words are used then.
pub fn note(table: &mut [u32], used: usize, starts: [u8; 16], k: usize, b: u32, limit: u64) -> usize
    requires { (used ≤ length table.old) × (k ≤ 16) × (limit ≤ MOST_LIMIT) }
    ensures place { result ≡ noted_used (length table.old) used limit (nogood_for (entry starts) (has b) k limit) }
    ensures words { table.new ≡ noted table.old used limit (nogood_for (entry starts) (has b) k limit) }
{
    if limit == 0 {
        return used;
    }
    let n = size(b, k);
    if n < 1 {
        return used;
    }
    if 3 < n {
        return used;
    }
    if table.len() - used < n + NOTE_ROOM {
        return used;
    }
    write(table, used, starts, k, b, limit)
}

// Notes the end of a walk: no schedule costs less than the limit. Nothing is to say of a limit of 0. Answers how many words are used then (D54).
pub fn conclude(table: &mut [u32], used: usize, limit: u64) -> usize
    requires { (used < length table.old) × (limit ≤ MOST_LIMIT) }
    ensures place { result ≡ end_used used limit }
    ensures words { table.new ≡ ended table.old used limit }
{
    if limit < 1 {
        return used;
    }
    table[used] = bound_word(limit);
    used + 1
}

// No unit comes after this one.
const LAST_UNIT: usize = 15;

// The unit of a choice's word, where it is one of those placed and has that start.
fn unit_met(starts: [u8; 16], placed: u32, word: u32) -> Option<usize>
    ensures { IfSome result (UnitMet starts (has placed) word) }
{
    let value = words::value_of(word);
    let unit = (value / CHOICE_RADIX).checked_sub(1)?;
    if LAST_UNIT < unit {
        return None;
    }
    if !sets::has(placed, unit) {
        return None;
    }
    if start_of(starts, unit) != value % CHOICE_RADIX {
        return None;
    }
    Some(unit)
}

// The units of the nogood at place i, where the starts of the units placed have all its choices.
fn matching(table: &[u32], starts: [u8; 16], placed: u32, i: usize) -> Option<u32>
    requires { i < length table.now }
    ensures { IfSome result (Match table.now starts (has placed) i) }
{
    let mut b = 0;
    for m in i + 1..table.len() {
        let word = table[m];
        if words::kind_of(word) != 14 {
            return Some(b);
        }
        b = sets::with(b, unit_met(starts, placed, word)?);
    }
    Some(b)
}

// The units of a nogood at place i that holds for the limit, where the starts of the units placed have all its choices.
fn meets(table: &[u32], starts: [u8; 16], placed: u32, limit: u64, i: usize) -> Option<u32>
    requires { i < length table.now }
    ensures { Recalled table.now starts (has placed) limit result }
{
    let word = table[i];
    if words::kind_of(word) != 13 {
        return None;
    }
    let bound = words::value_of(word) as u64;
    if bound + 1 < limit {
        return None;
    }
    matching(table, starts, placed, i)
}

// The units of a nogood that holds for the limit and whose choices the starts of the units placed have, among the words from one place to another.
// A choice is of a unit placed by the test of the unit itself: what the starts of other units are does not matter.
pub fn recall(
    table: &[u32],
    from: usize,
    to: usize,
    starts: [u8; 16],
    placed: u32,
    limit: u64,
) -> Option<u32>
    requires { to ≤ length table.now }
    ensures { Recalled table.now starts (has placed) limit result }
{
    (from..to).find_map(|i| meets(table, starts, placed, limit, i))
}
