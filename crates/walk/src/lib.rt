// The walk below a node: the starts of a unit tried in turn, each judged, and where one holds the next unit placed.
// Units count from 0, starts from 1.
#![tactic(auto)]

ghost use Rattle.std.specs.Prelude.{◌<◌, ◌≤◌};
ghost use Rattle.instance.specs.File.{problem};
ghost use Rattle.tables.specs.Tables.{price_in};
ghost use Rattle.relaxation.specs.Relaxed.{MemoTrue};
ghost use Rattle.state.specs.State.{MOST_TRIES};
ghost use Rattle.bound.specs.Tests.{Judged};
ghost use Rattle.walk.specs.Walk.{IsStart, PlaceDue, TryDue, TestStartDue, Deeper, TryTaken, PlaceDone, TryDone, Shares, TurnOf, LeafDue, BetterDue, Better, Leaf};

use dual::Node;
use instance::{Euro, File};
use state::{State, Step, Walked};
use tables::TABLES;

// A visit of a node: where the walk stands, and the state in which it comes there.
#[derive(Clone, Copy)]
pub struct Visit {
    pub node: Node,
    pub state: State,
}

// ---- a start judged

// Tests the start of a unit: noted nogoods, then rules and cost. It holds, and the lower bound with it is this; or these units' starts are a dead end.
pub fn test_start(
    file: &File,
    tables: &[u32; TABLES],
    rows: &[u64; 52],
    at: Visit,
    table: &[u32],
    values: &mut [u32],
    memo: &mut [u32],
) -> Result<Euro, u32>
    requires { TestStartDue file.now tables.now rows.now values.old at table.now memo.old }
    ensures answer { Judged (problem file.now) tables.now at.node at.state.limit.0 values.new result }
    ensures recalls { MemoTrue (problem file.now) (price_in tables.now) memo.new }
{
    let node = at.node;
    let st = at.state;
    if let Some(b) = state::recalled(table, st, node.starts, node.placed, node.unit) {
        return Err(b);
    }
    bound::test(file, tables, rows, node, st.limit, values, memo)
}

// Where the walk goes on from a start that holds: one unit more is placed at the bound with it, and the try is counted.
pub fn deeper(at: Visit, bound: Euro) -> Visit
    requires { (at.node.unit < 16) × (at.state.tries < MOST_TRIES) }
    ensures { Deeper at bound result }
{
    Visit {
        node: dual::next_node(at.node, bound),
        state: state::tried(at.state),
    }
}

// Judges the start of a unit, within the budget: where the walk goes on, or the dead end of the units to blame. The try is counted either way.
fn judge_start(
    file: &File,
    tables: &[u32; TABLES],
    rows: &[u64; 52],
    at: Visit,
    table: &[u32],
    values: &mut [u32],
    memo: &mut [u32],
) -> Result<Visit, Step>
    requires { TryDue file.now tables.now rows.now values.old at table.now memo.old × (at.state.tries < MOST_TRIES) }
    ensures { TryTaken file.now tables.now rows.now values.old at table.now memo.old
        values.new memo.new result }
{
    match test_start(file, tables, rows, at, table, values, memo) {
        Ok(bound) => Ok(deeper(at, bound)),
        Err(b) => Err(state::dead_end(state::tried(at.state), b)),
    }
}

// ---- all units placed

// A schedule of all units that costs less than the limit is the best so far; who is to blame that no other with their starts costs less.
fn take_better(
    file: &File,
    tables: &[u32; TABLES],
    at: Visit,
    cost: Euro,
    values: &mut [u32],
) -> Step
    requires { BetterDue file.now tables.now values.old at cost.0 }
    ensures { Better (problem file.now) at.node.starts at.state result }
{
    let node = at.node;
    let st = at.state;
    let starts = node.starts;
    let b = dual::find_blame(file, tables, node, cost, values);
    state::dead_end(state::improved(st, starts, cost), b)
}

// Every unit has its start: what the schedule costs, and who is to blame that no other with their starts costs less.
pub fn close_leaf(
    file: &File,
    tables: &[u32; TABLES],
    rows: &[u64; 52],
    values: &[u32; 52],
    at: Visit,
    memo: &mut [u32],
) -> Step
    requires { LeafDue file.now tables.now rows.now values.now at memo.old }
    ensures answer { Leaf (problem file.now) at.node.starts at.state result }
    ensures recalls { MemoTrue (problem file.now) (price_in tables.now) memo.new }
{
    let st = at.state;
    let starts = at.node.starts;
    let limit = st.limit;
    let cost = bound::cost(file, rows, starts, memo);
    if limit.0 <= cost.0 {
        return state::dead_end(st, at.node.placed);
    }
    let mut next = *values;
    take_better(file, tables, at, cost, &mut next)
}

// ---- a start tried, and the starts of a unit

// Tries the start of the node's unit, and places the next unit where it holds (D60, D91).
#[cycle(place_try_start)]
fn try_start(
    file: &File,
    tables: &[u32; TABLES],
    rows: &[u64; 52],
    values: &[u32; 52],
    at: Visit,
    table: &mut [u32],
    memo: &mut [u32],
) -> Step
    requires { TryDue file.now tables.now rows.now values.now at table.old memo.old }
    ensures answer { TryDone (problem file.now) table.old table.new at result }
    ensures recalls { MemoTrue (problem file.now) (price_in tables.now) memo.new }
{
    let st = at.state;
    let node = at.node;
    if st.budget <= st.tries {
        return state::stopped(st, node.starts, node.unit + 1);
    }
    let mut next = *values;
    match judge_start(file, tables, rows, at, &table[..], &mut next, memo) {
        Err(step) => step,
        Ok(below) => {
            let out = bound::placed_rows(file, rows, node.starts, node.unit);
            place(file, tables, &out, &next, below, table, memo)
        }
    }
}

// The visit of a node with start v for its unit.
pub fn with_start(node: Node, v: usize, st: State) -> Visit
    requires { (node.unit < 16) × (v ≤ 52) }
    ensures { IsStart node v st result }
{
    let mut starts = node.starts;
    starts[node.unit] = v as u8;
    Visit {
        node: Node { starts, ..node },
        state: st,
    }
}

// The units to blame so far, and those of one more start but unit j.
fn shared(blame: u32, b: u32, j: usize) -> u32
    requires { j < 32 }
    ensures { Shares blame b j result }
{
    sets::union(blame, sets::without(b, j))
}

// The units to blame after a start of unit j; none where its starts are left: the budget is spent, or unit j has no share in the dead end.
pub fn turn_after(step: Step, blame: u32, j: usize) -> Option<u32>
    requires { j < 32 }
    ensures { TurnOf step blame j result }
{
    match step.walked {
        Walked::Dead(b) if sets::has(b, j) => Some(shared(blame, b, j)),
        _ => None,
    }
}

// Tries the starts of the node's unit in turn, or weighs the schedule where all units are placed. A dead end that the unit has no share in is handed
// up at once: that is the jump back (D3, D60, D91, D92).
#[cycle(place_try_start)]
pub fn place(
    file: &File,
    tables: &[u32; TABLES],
    rows: &[u64; 52],
    values: &[u32; 52],
    at: Visit,
    table: &mut [u32],
    memo: &mut [u32],
) -> Step
    requires { PlaceDue file.now tables.now rows.now values.now at table.old memo.old }
    ensures answer { PlaceDone (problem file.now) table.old table.new at.node at.state result }
    ensures recalls { MemoTrue (problem file.now) (price_in tables.now) memo.new }
{
    let node = at.node;
    if file.layout.units <= node.unit {
        return close_leaf(file, tables, rows, values, at, memo);
    }
    let range = overhaul::starts_of(file, node.unit);
    let mut s = at.state;
    let mut blame = 0;
    // Each time round, no schedule with the starts of the units to blame and a start of this unit below v is left below the limit.
    // Not `..=`, which leaves by two ways, so that each goal behind the loop would stand twice.
    for v in range.first..range.last + 1 {
        let next = with_start(node, v, s);
        let step = try_start(file, tables, rows, values, next, table, memo);
        let Some(shared) = turn_after(step, blame, node.unit) else {
            return step;
        };
        blame = shared;
        s = step.state;
    }
    let last = state::last_unit(blame);
    let noted = state::note_dead_end(table, s, node.starts, node.unit, blame, last);
    state::dead_end(noted, blame)
}
