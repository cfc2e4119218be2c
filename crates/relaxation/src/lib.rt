// A week by itself, at prices for units that are not out: the least that the cheapest run and these prices come to, over all sets of units that may
// be out together and have certain units. The choice of further units goes depth first, from the highest of them down, and is cut where the
// prices left cannot pay. Where it has looked at too many sets it is given up, and the search over three states for each unit gives a lower bound.
// Weeks and units count from 0. `start` has what is known before the choice, `asked`
// what walks ask for.
#![tactic(auto)]

ghost use Rattle.std.specs.Prelude.{◌≡◌, true, false, ◌+◌, ◌<◌, ◌≤◌, get_or};
ghost use Rattle.sums.specs.NumSet.{has};
ghost use Rattle.model.specs.Commitment.{NO_RUN, full_least};
ghost use Rattle.instance.specs.File.{problem};
ghost use Rattle.tables.specs.Tables.{MOST_WEEK_PRICES, price_in, partners_in, Prices};
ghost use Rattle.blame.specs.Priced.{WeekLeast};
ghost use Rattle.memo.specs.Memo.{Right, Others};
ghost use Rattle.relaxation.specs.Relaxed.{WeekAt, Value, MemoTrue};
ghost use Rattle.relaxation.specs.Choosing.{MOST_VALUE, Floor, Lowers, NoGain, NodeKnown, Skipped, Child, WithUnit, Beginning, RootNode, Choosing};

use instance::{Euro, File};
use model::NO_RUN;
use sets::SETS;
use states::WeekTask;
use tables::TABLES;

mod asked;
mod start;

// How much may be spent on a week: how many sets may be looked at, and how many nodes of the search over three states.
#[derive(Clone, Copy)]
pub struct Effort {
    pub sets: u32,
    pub nodes: u64,
}

// What a week is worth, a set of units out that is worth so much, the sets that may still be looked at, and the nodes that were needed.
#[derive(Clone, Copy)]
pub struct WeekChoice {
    pub value: Euro,
    pub out: u32,
    pub sets: u32,
    pub nodes: u64,
}

// A set of units out in a week, from which the choice of further ones goes on: units that need no try, how many more crews allow, what the prices of
// the units not out come to, and that with the cheapest run.
#[derive(Clone, Copy)]
struct WeekNode {
    week: usize,
    out: u32,
    shut: u32,
    room: usize,
    rest: Euro,
    value: Euro,
}

// The sets that are looked at before a choice is given up.
pub const MOST_SETS: u32 = 200;

// ---- the choice

// A choice of sets, for which no nodes are needed.
fn week_choice(value: Euro, out: u32, sets: u32) -> WeekChoice
    ensures { result.value.0 ≡ value.0 }
{
    WeekChoice {
        value,
        out,
        sets,
        nodes: 0,
    }
}

// The better of two: the smaller value, the first of equals, with a set less to look at. Where no set is left the choice is given up: a week is worth 0
// at least.
fn better(best: WeekChoice, y: WeekNode) -> WeekChoice
    ensures { (result.value.0 ≤ best.value.0) × (result.value.0 ≤ y.value.0) }
{
    if best.sets == 0 {
        return week_choice(Euro(0), best.out, 0);
    }
    let sets = best.sets - 1;
    if y.value.0 < best.value.0 {
        return week_choice(y.value, y.out, sets);
    }
    week_choice(best.value, best.out, sets)
}

// Whether prices that come to so much cannot bring a value below the best so far, which is never below 0.
fn no_gain(best: Euro, left: u64, value: Euro) -> bool
    requires { (best.0 ≤ MOST_VALUE) × (left ≤ MOST_WEEK_PRICES) }
    ensures { result ≡ true → NoGain best.0 left value.0 }
{
    if best.0 == 0 {
        return true;
    }
    (best + Euro(left)).0 <= value.0
}

// Whether unit i, as the highest of further units, needs no try.
fn passed_over(left: &[u64; 17], i: usize, y: WeekNode, low: Euro) -> bool
    requires { (i < 16) × (low.0 ≤ MOST_VALUE) × (get_or left.now (i + 1) 0 ≤ MOST_WEEK_PRICES) }
    ensures over { result ≡ true → Skipped left.now i y low.0 }
    ensures open { result ≡ false → has y.shut i ≡ false }
{
    if sets::has(y.shut, i) {
        return true;
    }
    no_gain(low, left[i + 1], y.value)
}

// The set with unit i out as well, at the cost of its cheapest run.
fn child(tables: &[u32; TABLES], i: usize, y: WeekNode, out: u32, cost: Euro) -> WeekNode
    requires { (y.week < 52) × (i < 16) × (0 < y.room) × (cost.0 ≤ NO_RUN) × (price_in tables.now y.week i ≤ y.rest.0)
        × (y.rest.0 ≤ MOST_WEEK_PRICES) × Prices tables.now }
    ensures { Child (price_in tables.now y.week i) (partners_in tables.now i) i y out cost.0 result }
{
    let week = y.week;
    let own = tables::price(tables, week, i);
    let rest = Euro(y.rest.0 - own.0);
    let shut = start::shut_more(y.shut, i, tables::partners(tables, i));
    WeekNode {
        week,
        out,
        shut,
        room: y.room - 1,
        rest,
        value: cost + rest,
    }
}

// The set with unit i out as well.
fn with_unit(
    file: &File,
    tables: &[u32; TABLES],
    i: usize,
    y: WeekNode,
    memo: &mut [u32],
) -> WeekNode
    requires { WeekAt file.now tables.now y.week × Right (problem file.now) memo.old
        × NodeKnown (problem file.now) (price_in tables.now) y × (i < file.now.layout.units) × (0 < y.room) × (has y.shut i ≡ false) }
    ensures answer { WithUnit (problem file.now) (price_in tables.now) i y result }
    ensures right { Right (problem file.now) memo.new × Others memo.old memo.new }
{
    let out = sets::with(y.out, i);
    let cost = memo::full_least(file, y.week, out, memo);
    child(tables, i, y, out, cost)
}

// The best so far, or a better choice in which unit i is the highest of the further units out.
#[cycle(choose_choose_with)]
fn choose_with(
    file: &File,
    tables: &[u32; TABLES],
    left: &[u64; 17],
    i: usize,
    y: WeekNode,
    low: WeekChoice,
    memo: &mut [u32],
) -> WeekChoice
    requires { Choosing file.now tables.now left.now y memo.old × (i < file.now.layout.units) × (0 < y.room) × (low.value.0 ≤ y.value.0) }
    ensures answer { Lowers (problem file.now) (price_in tables.now) y.week (has y.out) i low.value.0 result.value.0 }
    ensures right { Right (problem file.now) memo.new × Others memo.old memo.new }
{
    if passed_over(left, i, y, low.value) {
        return low;
    }
    let z = with_unit(file, tables, i, y, memo);
    choose(file, tables, left, i, z, low, memo)
}

// The best so far, or a better choice with the units of y and further ones below k.
#[cycle(choose_choose_with)]
fn choose(
    file: &File,
    tables: &[u32; TABLES],
    left: &[u64; 17],
    k: usize,
    y: WeekNode,
    best: WeekChoice,
    memo: &mut [u32],
) -> WeekChoice
    requires { Choosing file.now tables.now left.now y memo.old × (k ≤ file.now.layout.units) }
    ensures answer { Floor (problem file.now) (price_in tables.now) y.week (has y.out) k result.value.0 }
    ensures less { result.value.0 ≤ best.value.0 }
    ensures right { Right (problem file.now) memo.new × Others memo.old memo.new }
{
    let mut low = better(best, y);
    if y.room == 0 {
        return low;
    }
    if no_gain(low.value, left[k], y.value) {
        return low;
    }
    // Each time round, `low` is at most what the week is worth with any set whose further units lie below i.
    for i in 0..k {
        low = choose_with(file, tables, left, i, y, low, memo);
    }
    low
}

// The set of units that are out, at the cost of its cheapest run, before others are tried.
fn root(
    file: &File,
    tables: &[u32; TABLES],
    left: &[u64; 17],
    t: usize,
    out: u32,
    cost: Euro,
) -> WeekNode
    requires { Beginning file.now tables.now left.now t out cost.0 }
    ensures { RootNode (problem file.now) (price_in tables.now) t out cost.0 result }
{
    let units = file.layout.units;
    let rest = Euro(left[units]);
    let shut = start::shut_units(file, tables, t, out);
    let room = start::room_left(file, out);
    WeekNode {
        week: t,
        out,
        shut,
        room,
        rest,
        value: cost + rest,
    }
}

// What a week is worth with the units of y out, and others perhaps, by the choice of sets; 0 where it was given up.
fn choose_by_sets(
    file: &File,
    tables: &[u32; TABLES],
    left: &[u64; 17],
    y: WeekNode,
    sets: u32,
    memo: &mut [u32],
) -> WeekChoice
    requires { Choosing file.now tables.now left.now y memo.old }
    ensures answer { WeekLeast (problem file.now) (price_in tables.now) y.week (has y.out) result.value.0
        × (result.value.0 ≤ y.value.0) }
    ensures right { Right (problem file.now) memo.new × Others memo.old memo.new }
{
    let own = week_choice(y.value, y.out, sets);
    choose(file, tables, left, file.layout.units, y, own, memo)
}

// What a week is worth at least with the units of y out, and others perhaps, by three states for each unit. The value of y itself is what the search
// has to get below, so that no more comes of it.
fn choose_by_states(file: &File, tables: &[u32; TABLES], y: WeekNode, nodes: u64) -> WeekChoice
    requires { WeekAt file.now tables.now y.week × NodeKnown (problem file.now) (price_in tables.now) y }
    ensures { WeekLeast (problem file.now) (price_in tables.now) y.week (has y.out) result.value.0
        × (result.value.0 ≤ y.value.0) }
{
    let most = y.value;
    let w = WeekTask {
        week: y.week,
        out: y.out,
        shut: y.shut,
        room: y.room,
        most,
        fuel: nodes,
    };
    let found = states::week_least(file, tables, w);
    let value = found.value;
    let spent = nodes.saturating_sub(found.fuel);
    WeekChoice {
        value,
        out: found.out,
        sets: 0,
        nodes: spent,
    }
}

// What a week is worth at least with the units of y out, and others perhaps: just these where no crew is left, else by sets, and where that is given
// up by states.
fn choose_any(
    file: &File,
    tables: &[u32; TABLES],
    left: &[u64; 17],
    y: WeekNode,
    effort: Effort,
    memo: &mut [u32],
) -> WeekChoice
    requires { Choosing file.now tables.now left.now y memo.old }
    ensures answer { WeekLeast (problem file.now) (price_in tables.now) y.week (has y.out) result.value.0
        × (result.value.0 ≤ y.value.0) }
    ensures right { Right (problem file.now) memo.new × Others memo.old memo.new }
{
    if y.room == 0 {
        return week_choice(y.value, y.out, effort.sets);
    }
    let c = choose_by_sets(file, tables, left, y, effort.sets, memo);
    if 0 < c.value.0 {
        return c;
    }
    choose_by_states(file, tables, y, effort.nodes)
}

// What week t is worth with these units out, and others perhaps, where their cheapest run costs so much.
fn choice_from(
    file: &File,
    tables: &[u32; TABLES],
    t: usize,
    out: u32,
    cost: Euro,
    effort: Effort,
    memo: &mut [u32],
) -> WeekChoice
    requires { WeekAt file.now tables.now t × Right (problem file.now) memo.old × (cost.0 ≡ full_least (problem file.now) t (has out))
        × (cost.0 < NO_RUN) }
    ensures answer { Value (problem file.now) (price_in tables.now) t (has out) result.value.0 }
    ensures right { Right (problem file.now) memo.new × Others memo.old memo.new }
{
    let left = start::prices_left(tables, file.layout.units, t, out);
    let y = root(file, tables, &left, t, out, cost);
    choose_any(file, tables, &left, y, effort, memo)
}

// What week t is worth with these units out, and others perhaps, computed from the least costs alone. The set is advice.
pub fn best_choice(
    file: &File,
    tables: &[u32; TABLES],
    t: usize,
    out: u32,
    effort: Effort,
    memo: &mut [u32],
) -> WeekChoice
    requires { WeekAt file.now tables.now t × Right (problem file.now) memo.old }
    ensures answer { Value (problem file.now) (price_in tables.now) t (has out) result.value.0 }
    ensures right { Right (problem file.now) memo.new × Others memo.old memo.new }
{
    let cost = memo::full_least(file, t, out, memo);
    if NO_RUN <= cost.0 {
        return WeekChoice {
            value: cost,
            out,
            sets: effort.sets,
            nodes: 0,
        };
    }
    choice_from(file, tables, t, out, cost, effort, memo)
}

// ---- values kept

// What week t is worth with these units out, and others perhaps, computed for a walk.
fn computed_value(file: &File, tables: &[u32; TABLES], t: usize, out: u32, memo: &mut [u32]) -> Euro
    requires { WeekAt file.now tables.now t × Right (problem file.now) memo.old }
    ensures answer { Value (problem file.now) (price_in tables.now) t (has out) result.0 }
    ensures right { Right (problem file.now) memo.new × Others memo.old memo.new }
{
    let effort = asked::walk_effort(tables, t, out);
    let c = best_choice(file, tables, t, out, effort, memo);
    c.value
}

// What week t is worth with these units out, and others perhaps: from the memo, or computed and kept there (D75).
pub fn week_value(file: &File, tables: &[u32; TABLES], t: usize, out: u32, memo: &mut [u32]) -> Euro
    requires { WeekAt file.now tables.now t × MemoTrue (problem file.now) (price_in tables.now) memo.old }
    ensures answer { Value (problem file.now) (price_in tables.now) t (has out) result.0 }
    ensures recalls { MemoTrue (problem file.now) (price_in tables.now) memo.new }
{
    if SETS <= out {
        return computed_value(file, tables, t, out, memo);
    }
    let key = asked::value_key(t, out);
    if let Some(word) = memo::lookup(memo, key) {
        return Euro(word as u64);
    }
    let value = computed_value(file, tables, t, out, memo);
    memo::keep(memo, key, value.0 as u32);
    value
}
