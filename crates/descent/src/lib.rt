// The descent: from some plan of the least cost to the earliest of them. Unit by unit each start below the plan's is refuted under a limit one euro
// above that cost, by a probe with the units before it as the plan has them; a plan that a probe finds takes the place of the one that was known.
// Units count from 0, starts from 1. Start at `descend`.
#![tactic(auto)]

ghost use Rattle.std.specs.Prelude.{◌≡◌, ◌<◌, ◌≤◌};
ghost use Rattle.instance.specs.File.{problem};
ghost use Rattle.tables.specs.Tables.{price_in};
ghost use Rattle.relaxation.specs.Relaxed.{MemoTrue};
ghost use Rattle.descent.specs.Descent.{DescentDue, Descended, UnitDue, TryDue, HeldDue, Told, Found, UnitDone, TryDone, HeldDone, IsAt, Keeps};

use dual::Node;
use instance::{Euro, File};
use probe::Visit;
use state::{State, Step, Walked};
use tables::TABLES;

// How a descent comes back: its plan is the earliest with the starts placed; or the next start is to be tried; or the tries are spent.
#[derive(Clone, Copy, Debug, PartialEq, Eq)]
pub enum Ending {
    Earliest,
    NextStart,
    Spent,
}

// A state, and how the descent came to it.
#[derive(Clone, Copy)]
pub struct Descent {
    pub state: State,
    pub ending: Ending,
}

// A descent that ends so.
fn ended(state: State, ending: Ending) -> Descent
    ensures { result ≡ record { state = state; ending = ending } }
{
    Descent { state, ending }
}

// ---- a start that holds

// Whether the plan that is known has the start of the unit placed last.
fn keeps_last(node: Node, best: [u8; 16]) -> bool
    requires { (1 ≤ node.unit) × (node.unit ≤ 16) }
    ensures { Keeps node best result }
{
    let starts = node.starts;
    let j = node.unit - 1;
    if starts[j] == best[j] {
        return true;
    }
    false
}

// What a probe for one plan under a limit tells: its plan, under that limit again; or that there is none; or its tries are spent.
fn tell(step: Step, limit: Euro) -> Descent
    ensures { Told step limit result }
{
    let st = step.state;
    if st.limit.0 < limit.0 {
        return ended(state::limited(st, limit), Ending::Earliest);
    }
    match step.walked {
        Walked::Spent(_) => ended(st, Ending::Spent),
        Walked::Dead(_) => ended(st, Ending::NextStart),
    }
}

// A plan below the limit with the starts of the units placed: the one that is known where it has the last of them, else that of a probe.
fn find_plan(
    file: &File,
    tables: &[u32; TABLES],
    rows: &[u64; 52],
    values: &[u32; 52],
    at: Visit,
    table: &mut [u32],
    memo: &mut [u32],
) -> Descent
    requires { HeldDue file.now tables.now rows.now values.now at table.old memo.old }
    ensures answer { Found file.now tables.now rows.now values.now at table.old table.new memo.new result }
    ensures recalls { MemoTrue (problem file.now) (price_in tables.now) memo.new }
{
    let st = at.visit.state;
    if keeps_last(at.visit.node, st.best) {
        return ended(st, Ending::Earliest);
    }
    let step = probe::place(file, tables, rows, values, at, table, memo);
    tell(step, st.limit)
}

// The same visit in another state.
fn in_state(at: Visit, state: State) -> Visit
    ensures { IsAt at state result }
{
    Visit {
        visit: walk::Visit { state, ..at.visit },
        ..at
    }
}

// ---- the starts of a unit

// The unit placed last has a start that holds: where a plan has it, the next unit.
#[cycle(lower_lower_held_lower_start)]
fn lower_held(
    file: &File,
    tables: &[u32; TABLES],
    rows: &[u64; 52],
    values: &[u32; 52],
    at: Visit,
    table: &mut [u32],
    memo: &mut [u32],
) -> Descent
    requires { HeldDue file.now tables.now rows.now values.now at table.old memo.old }
    ensures answer { HeldDone (problem file.now) table.old table.new at result }
    ensures recalls { MemoTrue (problem file.now) (price_in tables.now) memo.new }
{
    let found = find_plan(file, tables, rows, values, at, table, memo);
    match found.ending {
        Ending::Earliest => {
            let below = in_state(at, found.state);
            lower(file, tables, rows, values, below, table, memo)
        }
        _ => found,
    }
}

// Tries a start of the node's unit.
#[cycle(lower_lower_held_lower_start)]
fn lower_start(
    file: &File,
    tables: &[u32; TABLES],
    rows: &[u64; 52],
    values: &[u32; 52],
    at: Visit,
    table: &mut [u32],
    memo: &mut [u32],
) -> Descent
    requires { TryDue file.now tables.now rows.now values.now at table.old memo.old }
    ensures answer { TryDone (problem file.now) table.old table.new at result }
    ensures recalls { MemoTrue (problem file.now) (price_in tables.now) memo.new }
{
    let st = at.visit.state;
    let node = at.visit.node;
    if st.budget <= st.tries {
        return ended(st, Ending::Spent);
    }
    let mut next = *values;
    match probe::judge_start(file, tables, rows, at, &table[..], &mut next, memo) {
        Err(step) => ended(step.state, Ending::NextStart),
        Ok(below) => {
            let out = bound::placed_rows(file, rows, node.starts, node.unit);
            lower_held(file, tables, &out, &next, below, table, memo)
        }
    }
}

// The starts of the node's unit in turn, as far as a plan has one; where no unit is left the plan is the earliest.
#[cycle(lower_lower_held_lower_start)]
fn lower(
    file: &File,
    tables: &[u32; TABLES],
    rows: &[u64; 52],
    values: &[u32; 52],
    at: Visit,
    table: &mut [u32],
    memo: &mut [u32],
) -> Descent
    requires { UnitDue file.now tables.now rows.now values.now at table.old memo.old }
    ensures answer { UnitDone (problem file.now) table.old table.new at result }
    ensures recalls { MemoTrue (problem file.now) (price_in tables.now) memo.new }
{
    let unit = at.visit.node.unit;
    let mut s = at.visit.state;
    if file.layout.units <= unit {
        return ended(s, Ending::Earliest);
    }
    let range = overhaul::starts_of(file, unit);
    // Each time round, no schedule with the starts before this unit's and a start of it below v costs as little as the plan.
    for v in range.first..range.last + 1 {
        let below = probe::with_start(at, unit, v, s);
        let r = lower_start(file, tables, rows, values, below, table, memo);
        let Ending::NextStart = r.ending else {
            return r;
        };
        s = r.state;
    }
    ended(s, Ending::Spent)
}

// ---- the whole descent

// From the state's plan, whose cost is the state's limit and the least: the earliest plan of that cost, in a state under a limit one euro above it; or
// the tries are spent.
pub fn descend(
    file: &File,
    tables: &[u32; TABLES],
    st: State,
    table: &mut [u32],
    memo: &mut [u32],
) -> Descent
    requires { DescentDue file.now tables.now st table.old memo.old }
    ensures answer { Descended (problem file.now) table.old table.new st result }
    ensures recalls { MemoTrue (problem file.now) (price_in tables.now) memo.new }
{
    let limit = st.limit + Euro(1);
    let s = state::limited(st, limit);
    let v = bound::root(file, tables, limit);
    match v {
        Err(_) => ended(s, Ending::Spent),
        Ok(bound) => {
            let rows = bound::no_rows();
            let values = bound::first_values(tables);
            let at = probe::root_visit(bound, s, true);
            lower(file, tables, &rows, &values, at, table, memo)
        }
    }
}
