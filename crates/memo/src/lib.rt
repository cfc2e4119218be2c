// A memo in lent words: entries of two words, a key and what is kept under it. What weeks' cheapest runs cost is kept here under keys made of the
// week and the units out; the keys from OTHERS on are for another's use. There may be any number of words, even none; an entry that is overwritten is
// only computed again. Weeks count from 0.
#![tactic(auto)]

ghost use Rattle.std.specs.Prelude.{◌≡◌, ◌+◌, ◌*◌, ◌<◌, ◌≤◌, length, replicate};
ghost use Rattle.sums.specs.NumSet.{has};
ghost use Rattle.model.specs.Commitment.{least_cost, full_least, NO_RUN};
ghost use Rattle.sets.specs.Sets.{SETS};
ghost use Rattle.instance.specs.File.{problem};
ghost use Rattle.memo.specs.Memo.{Looked, Wrote, Others, key_of, Right};

use instance::{Euro, File};
use model::NO_RUN;
use sets::SETS;

// 2^22: the first key that is another's.
pub const OTHERS: u32 = 4194304;

// Empties the memo, whatever it held.
pub fn clear(memo: &mut [u32])
    ensures { memo.new ≡ replicate (length memo.old) 0 }
{
    lent::clear(memo)
}

// The key of week t and the units out, never 0.
fn key_of(t: usize, out: u32) -> u32
    requires { (t < 52) × (out < SETS) }
    ensures { result ≡ key_of t out }
{
    let week = t as u32;
    week * SETS + out + 1
}

// The entry where a key belongs. The factor, near 2^32 over the golden ratio, spreads the sets of one week and the weeks of one set over 2^32
// numbers; the entry is the same share of the entries, for which no division by their number is needed.
fn slot(key: u32, entries: usize) -> usize
    requires { 0 < entries }
    ensures { result < entries }
{
    let spread = key as usize * 2654435761 % 4294967296;
    if entries < 4294967296 {
        return spread * entries / 4294967296;
    }
    spread
}

// What the memo has under a key, if it has the key.
pub fn lookup(memo: &[u32], key: u32) -> Option<u32>
    ensures { Looked memo.now key result }
{
    let entries = memo.len() / 2;
    if entries == 0 {
        return None;
    }
    let at = slot(key, entries) * 2;
    if memo[at] == key {
        return Some(memo[at + 1]);
    }
    None
}

// Keeps a word under a key, in place of what stood where the key belongs.
pub fn keep(memo: &mut [u32], key: u32, word: u32)
    ensures { Wrote memo.old memo.new key word }
{
    let entries = memo.len() / 2;
    if 0 < entries {
        let at = slot(key, entries) * 2;
        memo[at] = key;
        memo[at + 1] = word;
    }
}

// What the cheapest run of week t costs with OFF charged to the units out too, NO_RUN where there is none: from the memo, or computed and kept
// there (D50).
pub fn full_least(file: &File, t: usize, out: u32, memo: &mut [u32]) -> Euro
    requires t_lt_weeks { t < file.now.layout.weeks }
    requires right_2 { Right (problem file.now) memo.old }
    ensures answer { (result.0 ≡ full_least (problem file.now) t (has out)) × (result.0 ≤ NO_RUN) }
    ensures right { Right (problem file.now) memo.new × Others memo.old memo.new }
{
    if SETS <= out {
        return commitment::full_least(file, t, out);
    }
    let key = key_of(t, out);
    if let Some(word) = lookup(memo, key) {
        return Euro(word as u64);
    }
    let cost = commitment::full_least(file, t, out);
    keep(memo, key, cost.0 as u32);
    cost
}

// What the cheapest run of week t costs with these units out, NO_RUN where there is none: without what the units out would cost OFF.
pub fn least_cost(file: &File, t: usize, out: u32, memo: &mut [u32]) -> Euro
    requires t_lt_weeks { t < file.now.layout.weeks }
    requires right_2 { Right (problem file.now) memo.old }
    ensures answer { (result.0 ≡ least_cost (problem file.now) t (has out)) × (result.0 ≤ NO_RUN) }
    ensures right { Right (problem file.now) memo.new × Others memo.old memo.new }
{
    let full = full_least(file, t, out, memo);
    // It stands for no run, whoever is charged.
    if NO_RUN <= full.0 {
        return full;
    }
    full.saturating_sub(file.off_sum(t, out))
}
