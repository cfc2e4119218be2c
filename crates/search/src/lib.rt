// One ask: the cheapest schedule at or below a ceiling, by depth-first branch and bound. A start that fails, and a unit whose starts have all failed,
// blame units, and a walk jumps back to the last of them; what was learnt goes into the table of nogoods. Probes come first, at ceilings that rise from
// the bound at the prices, since most plans cost little more; they take the units in any order, and a descent leads from their plan to the earliest.
// The walk in the paper's order comes last, where the tries of these are spent. Units count from 0, starts from 1.
// `gaps` has the probes at rising ceilings, `probes` what follows them, and here is the ask with its reply: start at `solve`.
#![tactic(auto)]

ghost use Rattle.std.specs.Prelude.{◌≡◌, true};
ghost use Rattle.sums.specs.Table.{entry};
ghost use Rattle.instance.specs.File.{problem};
ghost use Rattle.tables.specs.Tables.{price_in};
ghost use Rattle.relaxation.specs.Relaxed.{MemoTrue};
ghost use Rattle.bound.specs.Tests.{some_startless, Permits, RunsOf};
ghost use Rattle.state.specs.State.{dead_at};
ghost use Rattle.farkas.specs.Sums.{ShowsNone};
ghost use Rattle.search.specs.Walks.{SearchDue, SearchDone};
ghost use Rattle.search.specs.Ask.{ReplyOfDue, ReplyOf, AskDue, AskSearched, Asked};

use farkas::Findings;
use instance::File;
use state::{State, Step, Walked};
use tables::TABLES;

mod gaps;
mod probes;

// An ask: its ceiling and its budget.
#[derive(Clone, Copy)]
pub struct Ask {
    pub ceiling: u32,
    pub budget: u32,
}

// How an ask ended: its last state, with the runs of the best schedule.
#[derive(Clone, Copy)]
pub struct Reply {
    pub state: State,
    pub walked: Walked,
    pub runs: [u32; 52],
}

// The walks of an ask; none where some unit has no permitted start, and where it is known that there is no schedule.
fn search_all(
    file: &File,
    tables: &[u32; TABLES],
    st: State,
    free: &mut Findings,
    table: &mut [u32],
    memo: &mut [u32],
) -> Step
    requires { SearchDue file.now tables.now st free.old.shown table.old memo.old }
    ensures answer { SearchDone (problem file.now) table.old table.new st result free.new.shown }
    ensures startless { some_startless (problem file.now) ≡ true → result ≡ dead_at st 0 }
    ensures recalls { MemoTrue (problem file.now) (price_in tables.now) memo.new }
{
    if bound::has_no_start(file) {
        return state::dead_end(st, 0);
    }
    if free.shown {
        return state::dead_end(st, 0);
    }
    probes::solve_by_probes(file, tables, st, free, table, memo)
}

// The walks of an ask from its ceiling and budget.
fn search_ask(
    file: &File,
    tables: &[u32; TABLES],
    ask: Ask,
    free: &mut Findings,
    table: &mut [u32],
    used: usize,
    memo: &mut [u32],
) -> Step
    requires { AskDue file.now tables.now ask free.old.shown table.old used memo.old }
    ensures answer { AskSearched file.now tables.now ask table.old used table.new result free.new.shown }
    ensures recalls { MemoTrue (problem file.now) (price_in tables.now) memo.new }
{
    let st = state::fresh(ask.ceiling, ask.budget, &table[..], used);
    search_all(file, tables, st, free, table, memo)
}

// The runs of the best schedule, 0 where there is none.
fn best_runs(file: &File, st: State) -> [u32; 52]
    requires { (st.found ≡ true → Permits (problem file.now) (entry st.best)) }
    ensures { st.found ≡ true → RunsOf (problem file.now) (entry st.best) result }
{
    if st.found {
        return bound::runs(file, st.best);
    }
    [0; 52]
}

// The reply of an ask from how its search ended: the runs of the best schedule, and the conclusion in the table.
fn make_reply(file: &File, step: Step, table: &mut [u32]) -> Reply
    requires { ReplyOfDue file.now step table.old }
    ensures { ReplyOf (problem file.now) step table.old table.new result }
{
    Reply {
        runs: best_runs(file, step.state),
        state: state::note_end(table, step.state, step.walked),
        walked: step.walked,
    }
}

// One ask: the earliest of the cheapest schedules at or below the ceiling, within a budget of tries. The first `used` words of the table hold true
// nogoods, at entry and at exit, where the state says how many are in use. What is known of the free plant is true, at entry and at exit.
pub fn solve(
    file: &File,
    tables: &[u32; TABLES],
    ask: Ask,
    free: &mut Findings,
    table: &mut [u32],
    used: usize,
    memo: &mut [u32],
) -> Reply
    requires { AskDue file.now tables.now ask free.old.shown table.old used memo.old }
    ensures answer { Asked (problem file.now) ask.ceiling ask.budget table.old used table.new result }
    ensures free { ShowsNone (problem file.now) free.new.shown }
    ensures recalls { MemoTrue (problem file.now) (price_in tables.now) memo.new }
{
    let step = search_ask(file, tables, ask, free, table, used, memo);
    make_reply(file, step, table)
}
