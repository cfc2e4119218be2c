// The walks of an ask: from where the probes at gaps have come one at the ask's own ceiling, the descent from a plan, and the last walk.
ghost use Rattle.std.specs.Prelude.{◌≡◌};
ghost use Rattle.instance.specs.File.{problem};
ghost use Rattle.tables.specs.Tables.{price_in};
ghost use Rattle.relaxation.specs.Relaxed.{MemoTrue};
ghost use Rattle.state.specs.State.{renewed_at, improved_by, dead_at};
ghost use Rattle.walk.specs.Walk.{AtRoot, WalkDue, Finished};
ghost use Rattle.search.specs.Walks.{SearchDue, SearchDone, GoingDue, PlanDue, CeilingDue, VainDue, Settles, Concludes};

use crate::gaps;
use crate::gaps::{Outcome, Probes};
use descent::Ending;
use dual::Node;
use farkas::Findings;
use instance::{Euro, File};
use state::{State, Step};
use tables::TABLES;
use walk::Visit;

// ---- a walk from the root

// The visit of the root: no unit is placed, at this bound.
fn root_visit(bound: Euro, st: State) -> Visit
    ensures { AtRoot bound.0 st result }
{
    Visit {
        node: Node {
            starts: [0; 16],
            unit: 0,
            bound,
            placed: 0,
        },
        state: st,
    }
}

// A walk from the first place.
fn walk(file: &File, tables: &[u32; TABLES], st: State, table: &mut [u32], memo: &mut [u32]) -> Step
    requires { WalkDue file.now tables.now st table.old memo.old }
    ensures answer { Finished (problem file.now) table.old table.new st result }
    ensures recalls { MemoTrue (problem file.now) (price_in tables.now) memo.new }
{
    let limit = st.limit;
    let v = bound::root(file, tables, limit);
    match v {
        Err(_) => state::dead_end(st, 0),
        Ok(bound) => {
            let rows = bound::no_rows();
            let values = bound::first_values(tables);
            let at = root_visit(bound, st);
            walk::place(file, tables, &rows, &values, at, table, memo)
        }
    }
}

// ---- the end of an ask

// The walk in the paper's order at the ask's own ceiling and with its whole budget: it alone may be spent.
fn last_walk(
    file: &File,
    tables: &[u32; TABLES],
    st: State,
    s: State,
    table: &mut [u32],
    memo: &mut [u32],
) -> Step
    requires { GoingDue file.now tables.now st s table.old memo.old }
    ensures answer { Settles (problem file.now) table.old table.new st s result }
    ensures recalls { MemoTrue (problem file.now) (price_in tables.now) memo.new }
{
    let last = state::renewed(s, st.limit, st.budget);
    walk(file, tables, last, table, memo)
}

// The state's plan, at its cost.
fn tell_plan(s: State, cost: Euro) -> Step
    ensures { result ≡ dead_at (improved_by s s.best cost) 0 }
{
    state::dead_end(state::improved(s, s.best, cost), 0)
}

// No plan under the limit.
fn tell_none(s: State, limit: Euro, budget: u32) -> Step
    ensures { result ≡ dead_at (renewed_at s limit budget) 0 }
{
    state::dead_end(state::renewed(s, limit, budget), 0)
}

// From a plan of the least cost the earliest of them; where the tries are spent the last walk.
fn solve_by_descent(
    file: &File,
    tables: &[u32; TABLES],
    st: State,
    s: State,
    table: &mut [u32],
    memo: &mut [u32],
) -> Step
    requires { PlanDue file.now tables.now st s table.old memo.old }
    ensures answer { Settles (problem file.now) table.old table.new st s result }
    ensures recalls { MemoTrue (problem file.now) (price_in tables.now) memo.new }
{
    let cost = s.limit;
    let r = descent::descend(file, tables, s, table, memo);
    let q = r.state;
    if let Ending::Earliest = r.ending {
        return tell_plan(q, cost);
    }
    last_walk(file, tables, st, q, table, memo)
}

// One probe at the ask's own ceiling: without a plan there is none; from a plan the descent; where the tries are spent the last walk.
fn solve_at_ceiling(
    file: &File,
    tables: &[u32; TABLES],
    st: State,
    s: State,
    table: &mut [u32],
    memo: &mut [u32],
) -> Step
    requires { CeilingDue file.now tables.now st s table.old memo.old }
    ensures answer { Settles (problem file.now) table.old table.new st s result }
    ensures recalls { MemoTrue (problem file.now) (price_in tables.now) memo.new }
{
    let step = probe::from_root(file, tables, s, table, memo);
    match gaps::outcome_of(step, st.limit) {
        Outcome::Plan => solve_by_descent(file, tables, st, step.state, table, memo),
        Outcome::NoPlan => tell_none(step.state, st.limit, st.budget),
        Outcome::Spent => last_walk(file, tables, st, step.state, table, memo),
    }
}

// Where the probes at gaps were in vain: none where the free plant shows it, else one probe at the ask's own ceiling.
fn solve_in_vain(
    file: &File,
    tables: &[u32; TABLES],
    st: State,
    s: State,
    free: &mut Findings,
    table: &mut [u32],
    memo: &mut [u32],
) -> Step
    requires { VainDue file.now tables.now st s free.old.shown table.old memo.old }
    ensures answer { Concludes (problem file.now) table.old table.new st s result free.new.shown }
    ensures recalls { MemoTrue (problem file.now) (price_in tables.now) memo.new }
{
    gaps::learn(file, tables, free, s.budget, 1);
    if free.shown {
        return tell_none(s, st.limit, st.budget);
    }
    solve_at_ceiling(file, tables, st, s, table, memo)
}

// An ask: probes at gaps above the root's bound, then one at the ask's own ceiling; from the plan of one the descent to the earliest. Where their tries
// are spent all is forgotten but what the table holds, and the last walk follows.
pub fn solve_by_probes(
    file: &File,
    tables: &[u32; TABLES],
    st: State,
    free: &mut Findings,
    table: &mut [u32],
    memo: &mut [u32],
) -> Step
    requires { SearchDue file.now tables.now st free.old.shown table.old memo.old }
    ensures answer { SearchDone (problem file.now) table.old table.new st result free.new.shown }
    ensures recalls { MemoTrue (problem file.now) (price_in tables.now) memo.new }
{
    match gaps::probe_gaps(file, tables, st, free, table, memo) {
        Probes::AtPlan(s) => solve_by_descent(file, tables, st, s, table, memo),
        Probes::AtCeiling(s) => solve_in_vain(file, tables, st, s, free, table, memo),
    }
}
