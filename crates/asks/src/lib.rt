// The words of a list of asks: the ceiling and the budget of each, and what turns a run away: the file, the asks, lent memory, in that order.
#![tactic(auto)]

ghost use Rattle.std.specs.Prelude.{◌≡◌, ◌^◌, ◌<◌, ◌≤◌, length};
ghost use Rattle.model.specs.Words.{VALUES};
ghost use Rattle.model.specs.Verdict.{first_fault};
ghost use Rattle.model.specs.Refusal.{ask_fault, asks_verdict, memory_verdict, run_verdict};
ghost use Rattle.model.specs.Asks.{ceiling_at, budget_at};
ghost use Rattle.instance.specs.File.{problem};
ghost use Rattle.decoder.specs.Answers.{fault_number, verdict_of};

use decoder::{Fault, Refusal};
use instance::File;

// ---- the words

// The ceiling of ask k, from 0.
pub fn ceiling(asks: &[u32], k: usize) -> u32
    requires { k < 32 }
    ensures { (result ≡ ceiling_at asks.now k) × (result < VALUES) }
{
    words::value_at(asks, 2 * k) as u32
}

// Its budget of tries.
pub fn budget(asks: &[u32], k: usize) -> u32
    requires { k < 32 }
    ensures { (result ≡ budget_at asks.now k) × (result < VALUES) }
{
    words::value_at(asks, 2 * k + 1) as u32
}

// ---- what turns a run away

// What is wrong with ask word q: its kind, by its place that of a ceiling or of a budget, then a budget of 0.
fn ask_fault(asks: &[u32], q: usize) -> Option<Fault>
    requires { q < length asks.now }
    ensures { fault_number result ≡ ask_fault asks.now q }
{
    let word = asks[q];
    let part = q % 2;
    let kind = words::kind_of(word);
    if kind != 11 + part {
        return Some(Fault::WrongAskKind);
    }
    if part != 1 {
        return None;
    }
    if words::value_of(word) != 0 {
        return None;
    }
    Some(Fault::NoBudget)
}

// The ask words one by one.
fn each_verdict(asks: &[u32]) -> Result<(), Refusal>
    ensures { verdict_of result ≡ first_fault (ask_fault asks.now) 0 (length asks.now) }
{
    for q in 0..asks.len() {
        if let Some(fault) = ask_fault(asks, q) {
            return Err(fault.at(q));
        }
    }
    Ok(())
}

// The list of asks: its length, then word by word.
fn asks_verdict(asks: &[u32]) -> Result<(), Refusal>
    ensures { verdict_of result ≡ asks_verdict asks.now }
{
    if asks.len() < 1 {
        return Err(Fault::AskCount.at(0));
    }
    if asks.len() % 2 != 0 {
        return Err(Fault::AskCount.at(0));
    }
    if 64 < asks.len() {
        return Err(Fault::AskCount.at(0));
    }
    each_verdict(asks)
}

// How many words of scratch u units want: 2^u.
fn scratch_wanted(u: usize) -> usize
    requires { u ≤ 16 }
    ensures { result ≡ 2 ^ u }
{
    1 << u
}

// Lent memory for some asks: the table, the answers, the scratch.
fn memory_verdict(
    file: &File,
    asks: usize,
    table: usize,
    answers: usize,
    scratch: usize,
) -> Result<(), Refusal>
    requires { asks ≤ 32 }
    ensures { verdict_of result ≡ memory_verdict (problem file.now) asks table answers scratch }
{
    if table < 64 {
        return Err(Fault::TableSize.at(0));
    }
    if 16384 < table {
        return Err(Fault::TableSize.at(0));
    }
    if answers < asks * shape::block_size(file.layout.units, file.layout.weeks) {
        return Err(Fault::AnswersTooShort.at(0));
    }
    if scratch < scratch_wanted(file.layout.units) {
        return Err(Fault::ScratchTooShort.at(0));
    }
    Ok(())
}

// Every test of a run on any words: the file, then the asks, then lent memory by its numbers of words.
pub fn run_verdict(
    words: &[u32],
    asks: &[u32],
    table: usize,
    answers: usize,
    scratch: usize,
) -> Result<(), Refusal>
    ensures { verdict_of result ≡ run_verdict words.now asks.now table answers scratch }
{
    decoder::read(words)?;
    asks_verdict(asks)?;
    memory_verdict(&File::new(words), asks.len() / 2, table, answers, scratch)
}
