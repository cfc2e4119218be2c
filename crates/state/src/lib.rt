// The state of a walk and its small changes: a try counted, the mark set, a better schedule found; what the walk notes in the table of nogoods and
// what it looks up there. Units count from 0, starts from 1.
#![tactic(auto)]

ghost use Rattle.std.specs.Prelude.{◌≡◌, ◌+◌, ◌<◌, ◌≤◌, length};
ghost use Rattle.sums.specs.NumSet.{has, with};
ghost use Rattle.model.specs.Nogood.{MOST_LIMIT};
ghost use Rattle.nogood.specs.Recall.{Recalled};
ghost use Rattle.state.specs.State.{MOST_TRIES, tried_once, stopped_at, improved_by, dead_at, renewed_at, limited_to, with_table, indexed_at, DeadEndNoted, NoneNoted, EndNoted, WalkStart};

use instance::Euro;
use nogood::CHOICE_RADIX;

// The walk's state: the starts of the best schedule so far, the mark of a walk that stopped, for each unit where in the table the last nogood that
// ends at it ends, the limit that a schedule has to stay below, the words of the table in use, the tries made and the most that may be made, and
// whether there is a best. The fields stand in the order of their sizes: a bool before a wider field leaves 7 bytes between them, and every try
// copies those too, in two pieces.
#[derive(Clone, Copy)]
pub struct State {
    pub best: [u8; 16],
    pub mark: [u8; 16],
    pub ends: [u16; 16],
    pub limit: Euro,
    pub used: usize,
    pub tries: u32,
    pub budget: u32,
    pub found: bool,
}

// No schedule is left with the starts of these units; or the budget is spent, at a mark of so many starts. Both are ends of a walk, and neither is a
// failure for `?` to hand on: so it is no Result.
#[derive(Clone, Copy)]
pub enum Walked {
    Dead(u32),
    Spent(usize),
}

// A state, and how the walk came to it.
#[derive(Clone, Copy)]
pub struct Step {
    pub state: State,
    pub walked: Walked,
}

// ---- small changes

// One try more.
pub fn tried(st: State) -> State
    requires { st.tries < MOST_TRIES }
    ensures { result ≡ tried_once st }
{
    State {
        tries: st.tries + 1,
        ..st
    }
}

// The budget is spent: the mark is the place of the first k starts.
pub fn stopped(st: State, starts: [u8; 16], k: usize) -> Step
    ensures { result ≡ stopped_at st starts k }
{
    Step {
        state: State { mark: starts, ..st },
        walked: Walked::Spent(k),
    }
}

// Every unit has its start: these are the best so far.
pub fn improved(st: State, starts: [u8; 16], cost: Euro) -> State
    ensures { result ≡ improved_by st starts cost }
{
    State {
        best: starts,
        found: true,
        limit: cost,
        ..st
    }
}

// Another number of words is used, and nogoods end at other places.
fn with_table(st: State, ends: [u16; 16], used: usize) -> State
    ensures { result ≡ with_table st ends used }
{
    State { ends, used, ..st }
}

// A walk that has not begun, under another limit and with another budget, with the table as it stands.
pub fn renewed(st: State, limit: Euro, budget: u32) -> State
    ensures { result ≡ renewed_at st limit budget }
{
    State {
        limit,
        tries: 0,
        budget,
        found: false,
        ..st
    }
}

// The same state under another limit.
pub fn limited(st: State, limit: Euro) -> State
    ensures { result ≡ limited_to st limit }
{
    State { limit, ..st }
}

// A dead end.
pub fn dead_end(st: State, b: u32) -> Step
    ensures { result ≡ dead_at st b }
{
    Step {
        state: st,
        walked: Walked::Dead(b),
    }
}

// ---- the table of nogoods

// In how many words of the table a try looks for nogoods.
const WINDOW: usize = 64;

// 2^16: a word of 16 bits holds the places below it.
const INDEXED: usize = 65536;

// The last unit of a set, 0 where it has none.
pub fn last_unit(b: u32) -> usize
    ensures { result < 16 }
{
    (0..16).rev().find(|i| sets::has(b, *i)).unwrap_or(0)
}

// The places where nogoods end, with one more that ends at unit i. They decide which nogoods are looked at, and nothing rests on them.
fn indexed(ends: [u16; 16], i: usize, end: usize) -> [u16; 16]
    requires { i < 16 }
    ensures { result ≡ indexed_at ends i end }
{
    if INDEXED <= end {
        return ends;
    }
    let mut e = ends;
    e[i] = end as u16;
    e
}

// The same with the word before place `end`, where that is a choice.
fn indexed_word(ends: [u16; 16], word: u32, end: usize) -> [u16; 16]
    ensures { length result ≡ 16 }
{
    if words::kind_of(word) != 14 {
        return ends;
    }
    let Some(unit) = (words::value_of(word) / CHOICE_RADIX).checked_sub(1) else {
        return ends;
    };
    if 15 < unit {
        return ends;
    }
    indexed(ends, unit, end)
}

// For each unit, the place after the last choice of it in the table: there the last nogood that ends at it ends, or a later one goes on.
fn index(table: &[u32], used: usize) -> [u16; 16]
    requires { used ≤ length table.now }
    ensures { length result ≡ 16 }
{
    let mut ends: [u16; 16] = [0; 16];
    for i in 0..used {
        // By way of a variable: the check covers no call whose result is laid in an array that it holds.
        let next = indexed_word(ends, table[i], i + 1);
        ends = next;
    }
    ends
}

// A nogood that begins in the words before the place where the last one ends that ends at unit j, of which the starts of unit j and of the units
// placed have all choices, and whose bound is at or above the walk's own (D58).
pub fn recalled(table: &[u32], st: State, starts: [u8; 16], placed: u32, j: usize) -> Option<u32>
    requires { j < 16 }
    ensures { Recalled table.now starts (with (has placed) j) st.limit.0 result }
{
    let to = (st.ends[j] as usize).min(table.len());
    let from = to.saturating_sub(WINDOW);
    nogood::recall(table, from, to, starts, sets::with(placed, j), st.limit.0)
}

// Notes that the starts of the units of b, all below k, are a dead end below the state's limit, where there is space. It is found again at the unit
// `last`: that of them which a walk places last.
pub fn note_dead_end(
    table: &mut [u32],
    st: State,
    starts: [u8; 16],
    k: usize,
    b: u32,
    last: usize,
) -> State
    requires { (st.used ≤ length table.old) × (k ≤ 16) × (st.limit.0 ≤ MOST_LIMIT) × (last < 16) }
    ensures { DeadEndNoted table.old table.new st result starts k b }
{
    let used = nogood::note(table, st.used, starts, k, b, st.limit.0);
    if used == st.used {
        return st;
    }
    with_table(st, indexed(st.ends, last, used), used)
}

// Notes the nogood without choices under the state's last bound.
fn note_none(table: &mut [u32], st: State) -> State
    requires { (st.used < length table.old) × (st.limit.0 ≤ MOST_LIMIT) }
    ensures { NoneNoted table.old table.new st result }
{
    let used = nogood::conclude(table, st.used, st.limit.0);
    with_table(st, st.ends, used)
}

// The same where a walk has ended unspent.
pub fn note_end(table: &mut [u32], st: State, w: Walked) -> State
    requires { (st.used < length table.old) × (st.limit.0 ≤ MOST_LIMIT) }
    ensures { EndNoted table.old table.new st result w }
{
    match w {
        Walked::Spent(_) => st,
        Walked::Dead(_) => note_none(table, st),
    }
}

// ---- the beginning

// A walk that has not begun.
pub fn fresh(ceiling: u32, budget: u32, table: &[u32], used: usize) -> State
    requires { (ceiling < MOST_LIMIT) × (used ≤ length table.now) }
    ensures { WalkStart ceiling budget used result }
{
    State {
        best: [0; 16],
        mark: [0; 16],
        ends: index(table, used),
        limit: Euro(ceiling as u64 + 1),
        used,
        tries: 0,
        budget,
        found: false,
    }
}
