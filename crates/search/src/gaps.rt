// Probes at gaps: at ceilings that rise from the root's bound; and between them, where they are in vain, what the free plant shows.
ghost use Rattle.std.specs.Prelude.{◌+◌, ◌<◌, ◌≤◌, ◌≡◌};
ghost use Rattle.model.specs.Nogood.{MOST_LIMIT};
ghost use Rattle.instance.specs.File.{problem};
ghost use Rattle.bound.specs.Tests.{RootDue};
ghost use Rattle.prices.specs.Ranges.{PricedFile};
ghost use Rattle.farkas.specs.Sums.{ShowsNone};
ghost use Rattle.search.specs.Walks.{SearchDue, OutcomeOf, FirstTurn, probe_of, AfterVain, VainOn, GapAt, GapNext, GapsDone};

use farkas::Findings;
use instance::{Euro, File};
use state::{State, Step, Walked};
use tables::TABLES;

// ---- how a probe ended

// A probe ended with a plan; or unspent and without; or spent.
#[derive(Clone, Copy, Debug, PartialEq, Eq)]
pub enum Outcome {
    Plan,
    NoPlan,
    Spent,
}

// How a probe under a limit ended.
pub fn outcome_of(step: Step, limit: Euro) -> Outcome
    ensures { OutcomeOf step limit.0 result }
{
    match step.walked {
        Walked::Spent(_) => Outcome::Spent,
        Walked::Dead(_) if step.state.limit.0 < limit.0 => Outcome::Plan,
        Walked::Dead(_) => Outcome::NoPlan,
    }
}

// The tries that are left to further probes: none where one was spent.
fn tries_left(left: u32, step: Step) -> u32
    ensures { result ≤ left }
{
    match step.walked {
        Walked::Spent(_) => 0,
        Walked::Dead(_) => left.saturating_sub(step.state.tries),
    }
}

// ---- gaps

// What every schedule costs at least, by the bound with nobody out; the limit where nothing is below it.
fn root_cost(v: Result<Euro, u32>, tables: &[u32; TABLES], limit: Euro) -> Euro
    ensures { result.0 ≤ limit.0 }
{
    match v {
        Err(_) => limit,
        Ok(sum) => dual::cost_below(tables, sum, limit),
    }
}

// The first gap is an 8,192nd of the root's bound.
const FIRST_PART: u64 = 8192;
// The last is no more than a 32nd of it.
const LAST_PART: u64 = 32;

// By how much the first probe's ceiling lies above the root's bound: its first part, 1 at least.
fn first_gap(root: Euro) -> Euro
    ensures { 1 ≤ result.0 }
{
    Euro((root.0 / FIRST_PART).max(1))
}

// Gaps below this are tried: the probe's ceiling stays below the ask's, and the gap is no more than the bound's last part.
fn gap_room(root: Euro, limit: Euro) -> Euro
    requires { root.0 ≤ limit.0 }
    ensures { root.0 + result.0 ≤ limit.0 }
{
    let room = limit.0 - root.0;
    Euro(room.saturating_sub(1).min(root.0 / LAST_PART + 1))
}

// The next gap: twice this one, or all the room where no tries are left.
fn next_gap(gap: Euro, room: Euro, left: u32) -> Euro
    requires { (1 ≤ gap.0) × (gap.0 < room.0) × (room.0 ≤ MOST_LIMIT) }
    ensures { gap.0 < result.0 }
{
    if left == 0 { room } else { gap + gap }
}

// What every schedule costs at least, by the bound with nobody out; the ask's limit where nothing is below it.
fn least_cost(file: &File, tables: &[u32; TABLES], limit: Euro) -> Euro
    requires { RootDue file.now tables.now limit.0 }
    ensures { result.0 ≤ limit.0 }
{
    root_cost(bound::root(file, tables, limit), tables, limit)
}

// ---- the free plant

// After so many tries in vain the rounds on the free plant are made.
const VAIN_TRIES: u32 = 100000;

// What is known of the free plant: where there are at least so many tries, the rounds are made, once a run.
pub fn learn(file: &File, tables: &[u32; TABLES], free: &mut Findings, tries: u32, least: u32)
    requires { PricedFile file.now tables.now × ShowsNone (problem file.now) free.old.shown }
    ensures { ShowsNone (problem file.now) free.new.shown }
{
    if least <= tries {
        *free = farkas::try_rounds(file, tables, *free);
    }
}

// ---- probes at gaps

// Where the probes at gaps stand while none has found a plan: the state of the last, the root's bound, the room for gaps, the next gap and the tries
// left.
#[derive(Clone, Copy)]
struct GapTurn {
    state: State,
    root: Euro,
    room: Euro,
    gap: Euro,
    left: u32,
}

// A probe at a gap has found a plan; or it was in vain, and here stands the next.
#[derive(Clone, Copy)]
enum GapEnd {
    Found(State),
    Vain(GapTurn),
}

// Before the first probe.
fn first_turn(file: &File, tables: &[u32; TABLES], st: State) -> GapTurn
    requires { RootDue file.now tables.now st.limit.0 }
    ensures { FirstTurn st result }
{
    let root = least_cost(file, tables, st.limit);
    GapTurn {
        state: st,
        root,
        room: gap_room(root, st.limit),
        gap: first_gap(root),
        left: st.budget,
    }
}

// A probe that has not begun: its ceiling lies above the root's bound by the gap, its limit one euro above that; so many tries are left to it.
fn probe_at(at: GapTurn) -> State
    requires { at.root.0 + at.gap.0 < MOST_LIMIT }
    ensures { result ≡ probe_of at }
{
    let limit = at.root + at.gap + Euro(1);
    state::renewed(at.state, limit, at.left)
}

// The turn after a probe in vain: what the free plant shows then decides whether tries are left.
fn vain_turn(
    file: &File,
    tables: &[u32; TABLES],
    budget: u32,
    at: GapTurn,
    step: Step,
    free: &mut Findings,
) -> GapTurn
    requires { AfterVain file.now tables.now at free.old.shown }
    ensures { VainOn (problem file.now) at step.state free.new.shown result }
{
    let left = tries_left(at.left, step);
    learn(file, tables, free, budget.saturating_sub(left), VAIN_TRIES);
    let open = if free.shown { 0 } else { left };
    GapTurn {
        state: step.state,
        gap: next_gap(at.gap, at.room, open),
        left,
        ..at
    }
}

// The probe at the next gap, in an ask with this budget.
fn probe_gap(
    file: &File,
    tables: &[u32; TABLES],
    st: State,
    at: GapTurn,
    free: &mut Findings,
    table: &mut [u32],
    memo: &mut [u32],
) -> GapEnd
    requires { GapAt file.now tables.now st at free.old.shown table.old memo.old × (at.gap.0 < at.room.0) }
    ensures { GapNext file.now tables.now st table.old at table.new memo.new free.new.shown result }
{
    let probe = probe_at(at);
    let step = probe::from_root(file, tables, probe, table, memo);
    match outcome_of(step, probe.limit) {
        Outcome::Plan => GapEnd::Found(step.state),
        Outcome::NoPlan | Outcome::Spent => {
            GapEnd::Vain(vain_turn(file, tables, st.budget, at, step, free))
        }
    }
}

// Where the probes at gaps have come: to the state of one that has found the least cost and a plan; or, all of them in vain, to the state of the next,
// under the ask's own limit and with the tries that are left.
#[derive(Clone, Copy)]
pub enum Probes {
    AtPlan(State),
    AtCeiling(State),
}

// Probes at ceilings that rise from the root's bound. They share as many tries as the ask's budget (D76).
pub fn probe_gaps(
    file: &File,
    tables: &[u32; TABLES],
    st: State,
    free: &mut Findings,
    table: &mut [u32],
    memo: &mut [u32],
) -> Probes
    requires { SearchDue file.now tables.now st free.old.shown table.old memo.old }
    ensures { GapsDone file.now tables.now table.old st table.new memo.new free.new.shown result }
{
    let mut at = first_turn(file, tables, st);
    // Each time round, the probes so far have left what is true in the table, and found nothing.
    while at.gap.0 < at.room.0 {
        match probe_gap(file, tables, st, at, free, table, memo) {
            GapEnd::Found(state) => return Probes::AtPlan(state),
            GapEnd::Vain(next) => at = next,
        }
    }
    Probes::AtCeiling(state::renewed(at.state, st.limit, at.left))
}
