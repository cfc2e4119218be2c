// A run of asks on any words: refused under the listed causes, in their order, or every ask answered in the lent words, in turn, with the table of
// nogoods and what they settle carried from each to the next.
#![tactic(auto)]

ghost use Rattle.std.specs.Prelude.{◌≡◌, ◌+◌, ◌<◌, length, replicate};
ghost use Rattle.model.specs.Asks.{Answered, Ran};
ghost use Rattle.instance.specs.File.{problem};
ghost use Rattle.decoder.specs.Answers.{verdict_of};
ghost use Rattle.tables.specs.Tables.{TABLES, First};
ghost use Rattle.walk.specs.Walk.{Walking};
ghost use Rattle.asks.specs.Admitted.{Admitted};
ghost use Rattle.planner.specs.Carry.{SaysNothing, SaysNone, with_used, Remembered};
ghost use Rattle.planner.specs.Due.{OpenDue, ReplyDue, Told, PutDue, TurnPut, StartDue};

use decoder::Refusal;
use farkas::Findings;
use instance::{Euro, File};
use model::Layout;
use search::{Ask, Reply};
use state::{State, Walked};
use tables::TABLES;

// What the asks so far have settled: no sound schedule costs less than `least`, and where a plan is known it is the earliest at that cost. Beside it
// the words of the table in use.
#[derive(Clone, Copy)]
pub struct Carry {
    pub plan: Option<Reply>,
    pub least: Euro,
    pub used: usize,
}

// The turn of an ask: its number, from 0, and what the asks before it have settled.
#[derive(Clone, Copy)]
struct AskTurn {
    ask: usize,
    carry: Carry,
}

// ---- a settled ask

// None, with so many words of the table in use.
fn no_plan(used: usize) -> Reply
    ensures { SaysNone used result }
{
    Reply {
        state: State {
            best: [0; 16],
            mark: [0; 16],
            ends: [0; 16],
            limit: Euro(0),
            used,
            tries: 0,
            budget: 0,
            found: false,
        },
        walked: Walked::Dead(0),
        runs: [0; 52],
    }
}

// A plan again, with so many words of the table in use.
fn repeat_plan(plan: Reply, used: usize) -> Reply
    ensures { result ≡ with_used plan used }
{
    Reply {
        state: State { used, ..plan.state },
        ..plan
    }
}

// ---- one ask

// What a search tells the ask whose turn it is.
fn reply_searched(
    file: &File,
    tables: &[u32; TABLES],
    asks: &[u32],
    turn: AskTurn,
    free: &mut Findings,
    table: &mut [u32],
    scratch: &mut [u32],
) -> Reply
    requires { OpenDue file.now tables.now asks.now turn.ask turn.carry free.old.shown table.old scratch.old }
    ensures { Told file.now tables.now asks.now turn.ask turn.carry table.old table.new
        scratch.new result free.new.shown }
{
    let ask = Ask {
        ceiling: asks::ceiling(asks, turn.ask),
        budget: asks::budget(asks, turn.ask),
    };
    search::solve(file, tables, ask, free, table, turn.carry.used, scratch)
}

// What the ask is told whose turn it is: at once where the carry settles it, else by a search (D66).
fn reply(
    file: &File,
    tables: &[u32; TABLES],
    asks: &[u32],
    turn: AskTurn,
    free: &mut Findings,
    table: &mut [u32],
    scratch: &mut [u32],
) -> Reply
    requires { ReplyDue file.now tables.now asks.now turn.ask turn.carry free.old.shown table.old scratch.old }
    ensures { Told file.now tables.now asks.now turn.ask turn.carry table.old table.new
        scratch.new result free.new.shown }
{
    let m = turn.carry;
    let ceiling = asks::ceiling(asks, turn.ask);
    if (ceiling as u64) < m.least.0 {
        return no_plan(m.used);
    }
    match m.plan {
        Some(plan) => repeat_plan(plan, m.used),
        None => reply_searched(file, tables, asks, turn, free, table, scratch),
    }
}

// What is remembered after a reply: a plan, that there is none, or of a spent ask nothing (D65).
fn remembered(m: Carry, ceiling: u32, told: Reply) -> Carry
    ensures { Remembered m ceiling told result }
{
    let used = told.state.used;
    match told.walked {
        Walked::Spent(_) => Carry { used, ..m },
        Walked::Dead(_) if told.state.found => Carry {
            plan: Some(told),
            least: told.state.limit,
            used,
        },
        Walked::Dead(_) => Carry {
            least: Euro(m.least.0.max(ceiling as u64 + 1)),
            used,
            ..m
        },
    }
}

// Puts the block of the ask whose turn it is into the lent words (D23); what is carried then is given.
fn put_turn(l: Layout, asks: &[u32], turn: AskTurn, told: Reply, answers: &mut [u32]) -> Carry
    requires { PutDue l asks.now turn.ask told (length answers.old) }
    ensures { TurnPut l asks.now turn.ask turn.carry told answers.old answers.new result }
{
    block::put(answers, l, turn.ask, told);
    remembered(turn.carry, asks::ceiling(asks, turn.ask), told)
}

// ---- a run

// A carry before the first ask.
fn empty_carry() -> Carry
    ensures { SaysNothing result }
{
    Carry {
        plan: None,
        least: Euro(0),
        used: 0,
    }
}

// Every ask of a run in turn.
fn answer_each(
    file: &File,
    tables: &[u32; TABLES],
    asks: &[u32],
    free: &mut Findings,
    answers: &mut [u32],
    table: &mut [u32],
    scratch: &mut [u32],
)
    requires { StartDue file.now tables.now asks.now free.old.shown answers.old table.old scratch.old }
    ensures answered { Answered (problem file.now) asks.now answers.old answers.new table.new }
    ensures table_len_unchanged { length table.new ≡ length table.old }
{
    let mut carry = empty_carry();
    let n = asks.len() / 2;
    // Each time round, the asks before k are answered, and the carry says what they settle.
    for k in 0..n {
        let turn = AskTurn { ask: k, carry };
        let told = reply(file, tables, asks, turn, free, table, scratch);
        carry = put_turn(file.layout, asks, turn, told, answers);
    }
}

// The table of a walk for a file, with an emptied memo; at prices of 0 where it is shown that there is no schedule, since no walk is made then.
fn tables_of(
    file: &File,
    first: &[u32; TABLES],
    free: Findings,
    scratch: &mut [u32],
) -> [u32; TABLES]
    requires { First (problem file.now) (problem file.now).units first.now × (scratch.old ≡ replicate (length scratch.old) 0) }
    ensures { Walking file.now result scratch.new }
{
    if free.shown {
        return dual::fill_tables(file, first, scratch);
    }
    let priced = prices::find_prices(file, first, scratch);
    dual::fill_tables(file, &priced, scratch)
}

// Every ask of a run in turn, at prices that the file gives, with an emptied table (D63).
fn answer_priced(
    file: &File,
    asks: &[u32],
    answers: &mut [u32],
    table: &mut [u32],
    scratch: &mut [u32],
)
    requires { Admitted file.now asks.now (length table.old) (length answers.old) × (table.old ≡ replicate (length table.old) 0)
        × (scratch.old ≡ replicate (length scratch.old) 0) }
    ensures answered { Answered (problem file.now) asks.now answers.old answers.new table.new }
    ensures table_len_unchanged { length table.new ≡ length table.old }
{
    let first = tables::first(file);
    let mut free = farkas::try_fixed(file, &first);
    let tables = tables_of(file, &first, free, scratch);
    answer_each(file, &tables, asks, &mut free, answers, table, scratch);
}

// Every ask of a run that was not turned away. Table and scratch are emptied first, whatever they held (D68).
fn answer_all(
    file: &File,
    asks: &[u32],
    answers: &mut [u32],
    table: &mut [u32],
    scratch: &mut [u32],
)
    requires { Admitted file.now asks.now (length table.old) (length answers.old) }
    ensures answered { Answered (problem file.now) asks.now answers.old answers.new table.new }
    ensures table_len_unchanged { length table.new ≡ length table.old }
{
    nogood::clear(table);
    memo::clear(scratch);
    answer_priced(file, asks, answers, table, scratch);
}

// A run of asks: refused, and every lent word as it was; or every ask answered (D62). An ask makes at most twice its budget of tries, and the work
// outside of them is bounded for each week of the file (D105, D106); that is how the code is built, and not part of what is proved.
pub fn run(
    words: &[u32],
    asks: &[u32],
    answers: &mut [u32],
    table: &mut [u32],
    scratch: &mut [u32],
) -> Result<(), Refusal>
    ensures { Ran (verdict_of result) words.now asks.now
        answers.old table.old scratch.old answers.new table.new scratch.new }
{
    asks::run_verdict(words, asks, table.len(), answers.len(), scratch.len())?;
    answer_all(&File::new(words), asks, answers, table, scratch);
    Ok(())
}
