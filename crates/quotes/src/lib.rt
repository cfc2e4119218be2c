// What weeks and overhauls of a file cost, asked one by one, of any words. Weeks, units and starts count from 1 here, as in the file; what the
// file does not have, a week past the last or a start that is not permitted, has no quote.
#![tactic(auto)]

ghost use Rattle.std.specs.Prelude.{◌≡◌, ◌<◌, ◌≤◌, length};
ghost use Rattle.model.specs.Verdict.{accepted};
ghost use Rattle.model.specs.Reading.{read_of};
ghost use Rattle.model.specs.Words.{problem_of};
ghost use Rattle.instance.specs.File.{problem};
ghost use Rattle.decoder.specs.Answers.{verdict_of};
ghost use Rattle.memo.specs.Memo.{Right};
ghost use Rattle.quotes.specs.Quotes.{quote_with, run_quote, start_quote, upkeep_quote, query_cost, costs_verdict, costs_into, KeptIfRefused};
ghost use Rattle.quotes.specs.Answers.{quote_of, quoted_of};

use decoder::{Fault, Refusal};
use instance::File;
use model::NO_RUN;
use sets::SETS;

// A number and its cost in euros: a week's cheapest run, or the start that was asked about, so that one quote serves both.
#[derive(Clone, Copy, Debug, PartialEq, Eq)]
pub struct Quote {
    pub number: u32,
    pub cost: u32,
}

// The cheapest run of a week of an accepted file.
fn filed_run(file: &File, week: usize, out: u32) -> Option<Quote>
    ensures { quote_of result ≡ run_quote (problem file.now) week out }
{
    if week == 0 {
        return None;
    }
    if file.layout.weeks < week {
        return None;
    }
    match commitment::cheapest(file, week - 1, out) {
        None => None,
        Some(run) => Some(Quote {
            number: run.number,
            cost: run.cost.0 as u32,
        }),
    }
}

// The cheapest run of a week with these units out: its number and its cost; or the file's refusal.
pub fn cheapest_run(words: &[u32], week: usize, out: u32) -> Result<Option<Quote>, Refusal>
    ensures { quoted_of result ≡ quote_with (read_of words.now) (run_quote (problem_of words.now) week out) }
{
    decoder::read(words)?;
    Ok(filed_run(&File::new(words), week, out))
}

// What the overhaul of unit i, from 0, costs from a start.
fn start_quote(file: &File, i: usize, start: usize) -> Option<Quote>
    requires { i < file.now.layout.units }
    ensures { quote_of result ≡ start_quote (problem file.now) i start }
{
    let starts = overhaul::starts_of(file, i);
    if start < starts.first {
        return None;
    }
    if starts.last < start {
        return None;
    }
    let cost = overhaul::upkeep(file, i, start);
    Some(Quote {
        number: start as u32,
        cost: cost.0 as u32,
    })
}

// The same of a unit of an accepted file.
fn filed_upkeep(file: &File, unit: usize, start: usize) -> Option<Quote>
    ensures { quote_of result ≡ upkeep_quote (problem file.now) unit start }
{
    if unit == 0 {
        return None;
    }
    if file.layout.units < unit {
        return None;
    }
    start_quote(file, unit - 1, start)
}

// What the overhaul of a unit costs in maintenance from a permitted start: the start and the cost; or the file's refusal.
pub fn upkeep(words: &[u32], unit: usize, start: usize) -> Result<Option<Quote>, Refusal>
    ensures { quoted_of result ≡ quote_with (read_of words.now) (upkeep_quote (problem_of words.now) unit start) }
{
    decoder::read(words)?;
    Ok(filed_upkeep(&File::new(words), unit, start))
}

// The cost that a query asks for: a week times SETS and the units out.
fn query_cost(file: &File, query: u32, scratch: &mut [u32]) -> u32
    requires { Right (problem file.now) scratch.old }
    ensures answer { result ≡ query_cost (problem file.now) query }
    ensures kept { Right (problem file.now) scratch.new }
{
    let asked = (query / SETS) as usize;
    if asked == 0 {
        return NO_RUN as u32;
    }
    if file.layout.weeks < asked {
        return NO_RUN as u32;
    }
    let cost = memo::least_cost(file, asked - 1, query % SETS, scratch);
    cost.0 as u32
}

// Writes the costs; the words beyond are kept.
fn write(file: &File, queries: &[u32], scratch: &mut [u32], costs: &mut [u32])
    requires right { Right (problem file.now) scratch.old }
    requires queries_in_bounds { length queries.now ≤ length costs.old }
    ensures { costs.new ≡ costs_into accepted (problem file.now) queries.now costs.old }
{
    let n = queries.len();
    for k in 0..n {
        costs[k] = query_cost(file, queries[k], scratch);
    }
}

// Writes what the cheapest run of each queried week costs with the queried units out, NO_RUN where there is none, into the lent words and keeps
// any beyond; or refuses and changes nothing: the file's refusal, then 17 where the words are fewer than the queries. The scratch may have any
// length and hold anything (D51).
pub fn quote_weeks(
    words: &[u32],
    queries: &[u32],
    scratch: &mut [u32],
    costs: &mut [u32],
) -> Result<(), Refusal>
    ensures answer { verdict_of result ≡ costs_verdict words.now (length queries.now) (length costs.old) }
    ensures buffer { costs.new ≡
        costs_into (verdict_of result) (problem_of words.now) queries.now costs.old }
    ensures lent { KeptIfRefused (verdict_of result) scratch.old scratch.new }
{
    decoder::read(words)?;
    if costs.len() < queries.len() {
        return Err(Fault::TooFewWords.at(0));
    }
    memo::clear(scratch);
    write(&File::new(words), queries, scratch, costs);
    Ok(())
}
