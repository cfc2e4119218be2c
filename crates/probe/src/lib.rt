// Probes: walks from some units placed that take as the next unit whichever they like. A probe keeps no place and no mark: it tells that nothing is
// left below its limit with the starts of the units placed, or a plan with them at the limit that it leaves; what it learns goes into the table.
// Units count from 0, starts from 1.
// `choice` names the next unit, and here is the walk of a probe: start at `place`.
#![tactic(auto)]

ghost use Rattle.std.specs.Prelude.{◌<◌, ◌≤◌, length};
ghost use Rattle.model.specs.Nogood.{MOST_LIMIT};
ghost use Rattle.instance.specs.File.{problem};
ghost use Rattle.tables.specs.Tables.{price_in};
ghost use Rattle.relaxation.specs.Relaxed.{MemoTrue};
ghost use Rattle.state.specs.State.{MOST_TRIES, DeadEndNoted};
ghost use Rattle.walk.specs.Walk.{AtRoot, Deeper};
ghost use Rattle.probe.specs.Probe.{Chosen, IsStart, PlaceDue, StartDue, StartTaken, WeighDue, Weighed, Stops, PlaceDone, StartDone, RootDone, ProbeDue};

use dual::Node;
use instance::{Euro, File};
use state::{State, Step};
use tables::TABLES;

mod choice;

// A visit as a walk makes it, and beside it the units placed, four bits each and the last lowest, and whether the probe ends at its first plan.
#[derive(Clone, Copy)]
pub struct Visit {
    pub visit: walk::Visit,
    pub order: u64,
    pub first: bool,
}

// ---- the order of placing

// Four bits hold a unit.
const UNITS: u64 = 16;
// The units before the last fifteen give way.
const ORDERS: u64 = 1152921504606846976;

// The order with one unit more.
fn order_with(order: u64, unit: usize) -> u64
    requires { unit < 16 }
{
    order % ORDERS * UNITS + unit as u64
}

// The unit of a set that was placed last.
fn last_placed(order: u64, b: u32) -> usize
    ensures { result < 16 }
{
    let mut rest = order;
    for _ in 0..16 {
        let unit = (rest % UNITS) as usize;
        if sets::has(b, unit) {
            return unit;
        }
        rest /= UNITS;
    }
    0
}

// Notes the dead end of the units of b under the one placed last.
fn note_blame(
    table: &mut [u32],
    st: State,
    starts: [u8; 16],
    units: usize,
    b: u32,
    order: u64,
) -> State
    requires { (st.used ≤ length table.old) × (units ≤ 16) × (st.limit.0 ≤ MOST_LIMIT) }
    ensures { DeadEndNoted table.old table.new st result starts units b }
{
    let last = last_placed(order, b);
    state::note_dead_end(table, st, starts, units, b, last)
}

// ---- a start judged

// Where the probe goes on from a start that holds: one unit more is placed.
fn deeper(at: Visit, bound: Euro) -> Visit
    requires { (at.visit.node.unit < 16) × (at.visit.state.tries < MOST_TRIES) }
    ensures { Deeper at.visit bound result.visit }
{
    Visit {
        visit: walk::deeper(at.visit, bound),
        order: order_with(at.order, at.visit.node.unit),
        ..at
    }
}

// Judges the start of a unit, within the budget: where the probe goes on, or the dead end of the units to blame. The try is counted either way.
pub fn judge_start(
    file: &File,
    tables: &[u32; TABLES],
    rows: &[u64; 52],
    at: Visit,
    table: &[u32],
    values: &mut [u32],
    memo: &mut [u32],
) -> Result<Visit, Step>
    requires { StartDue file.now tables.now rows.now values.old at table.now memo.old × (at.visit.state.tries < MOST_TRIES)
        × (at.visit.state.tries < at.visit.state.budget) }
    ensures { StartTaken file.now tables.now rows.now values.old at table.now memo.old
        values.new memo.new result }
{
    match walk::test_start(file, tables, rows, at.visit, table, values, memo) {
        Ok(bound) => Ok(deeper(at, bound)),
        Err(b) => Err(state::dead_end(state::tried(at.visit.state), b)),
    }
}

// ---- all units placed

// A probe for one plan stops where its limit has fallen.
fn stop_at_plan(step: Step, limit: Euro, first: bool) -> Step
    ensures { Stops step result }
{
    if !first {
        return step;
    }
    let st = step.state;
    let mark = st.mark;
    if st.limit.0 < limit.0 {
        return state::stopped(st, mark, 0);
    }
    step
}

// Every unit has its start: what the plan costs, and who is to blame that no other with their starts costs less.
fn weigh(
    file: &File,
    tables: &[u32; TABLES],
    rows: &[u64; 52],
    values: &[u32; 52],
    at: Visit,
    memo: &mut [u32],
) -> Step
    requires { WeighDue file.now tables.now rows.now values.now at memo.old }
    ensures answer { Weighed (problem file.now) at.visit.node at.visit.state result }
    ensures recalls { MemoTrue (problem file.now) (price_in tables.now) memo.new }
{
    let step = walk::close_leaf(file, tables, rows, values, at.visit, memo);
    stop_at_plan(step, at.visit.state.limit, at.first)
}

// ---- a start tried, and the starts of a unit

// The unit that is placed next; as many as there are where all are placed.
fn next_unit(file: &File, tables: &[u32; TABLES], rows: &[u64; 52], at: Visit) -> usize
    requires { (at.visit.state.limit.0 ≤ MOST_LIMIT) }
    ensures { Chosen file.now.layout.units at.visit.node.placed result }
{
    let node = at.visit.node;
    let wanted = dual::wanted(tables, at.visit.state.limit);
    choice::choose(
        file,
        tables,
        rows,
        node.placed,
        wanted.saturating_sub(node.bound),
    )
}

// The visit of a node with start v for a unit.
pub fn with_start(at: Visit, unit: usize, v: usize, st: State) -> Visit
    requires { (unit < 16) × (v ≤ 52) }
    ensures { IsStart at unit v st result }
{
    let node = Node {
        unit,
        ..at.visit.node
    };
    Visit {
        visit: walk::with_start(node, v, st),
        ..at
    }
}

// Tries the start of the node's unit, and places another unit where it holds.
#[cycle(place_try_start)]
fn try_start(
    file: &File,
    tables: &[u32; TABLES],
    rows: &[u64; 52],
    values: &[u32; 52],
    at: Visit,
    table: &mut [u32],
    memo: &mut [u32],
) -> Step
    requires { StartDue file.now tables.now rows.now values.now at table.old memo.old }
    ensures answer { StartDone (problem file.now) table.old table.new at result }
    ensures recalls { MemoTrue (problem file.now) (price_in tables.now) memo.new }
{
    let st = at.visit.state;
    let node = at.visit.node;
    if st.budget <= st.tries {
        return state::stopped(st, node.starts, 0);
    }
    let mut next = *values;
    match judge_start(file, tables, rows, at, &table[..], &mut next, memo) {
        Err(step) => step,
        Ok(below) => {
            let out = bound::placed_rows(file, rows, node.starts, node.unit);
            place(file, tables, &out, &next, below, table, memo)
        }
    }
}

// Tries the starts of a unit in turn, or weighs the plan where all units are placed. A dead end that the unit has no share in is handed up at once.
#[cycle(place_try_start)]
pub fn place(
    file: &File,
    tables: &[u32; TABLES],
    rows: &[u64; 52],
    values: &[u32; 52],
    at: Visit,
    table: &mut [u32],
    memo: &mut [u32],
) -> Step
    requires { PlaceDue file.now tables.now rows.now values.now at table.old memo.old }
    ensures answer { PlaceDone (problem file.now) table.old table.new at.visit.node at.visit.state result }
    ensures recalls { MemoTrue (problem file.now) (price_in tables.now) memo.new }
{
    let unit = next_unit(file, tables, rows, at);
    if file.layout.units <= unit {
        return weigh(file, tables, rows, values, at, memo);
    }
    let range = overhaul::starts_of(file, unit);
    let mut s = at.visit.state;
    let mut blame = 0;
    // Each time round, no schedule with the starts of the units to blame and a start of this unit below v is left below the limit.
    for v in range.first..range.last + 1 {
        let next = with_start(at, unit, v, s);
        let step = try_start(file, tables, rows, values, next, table, memo);
        let Some(shared) = walk::turn_after(step, blame, unit) else {
            return step;
        };
        blame = shared;
        s = step.state;
    }
    let noted = note_blame(
        table,
        s,
        at.visit.node.starts,
        file.layout.units,
        blame,
        at.order,
    );
    state::dead_end(noted, blame)
}

// ---- from the root

// The visit of the root: no unit is placed, at this bound.
pub fn root_visit(bound: Euro, st: State, first: bool) -> Visit
    ensures { AtRoot bound.0 st result.visit }
{
    Visit {
        visit: walk::Visit {
            node: Node {
                starts: [0; 16],
                unit: 0,
                bound,
                placed: 0,
            },
            state: st,
        },
        order: 0,
        first,
    }
}

// A probe from the root, under the state's limit and within its budget.
pub fn from_root(
    file: &File,
    tables: &[u32; TABLES],
    st: State,
    table: &mut [u32],
    memo: &mut [u32],
) -> Step
    requires { ProbeDue file.now tables.now st table.old memo.old }
    ensures answer { RootDone (problem file.now) table.old table.new st result }
    ensures recalls { MemoTrue (problem file.now) (price_in tables.now) memo.new }
{
    let v = bound::root(file, tables, st.limit);
    match v {
        Err(_) => state::dead_end(st, 0),
        Ok(bound) => {
            let rows = bound::no_rows();
            let values = bound::first_values(tables);
            let at = root_visit(bound, st, false);
            place(file, tables, &rows, &values, at, table, memo)
        }
    }
}
