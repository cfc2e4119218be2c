// A week at prices by three states: each unit is a place that is ON, OFF or OUT, and a need is met at the least cost, with as many OUT as crews are left.
// It is what every set of units out costs at least, found where sets are too many to be tried one by one. In the field this is branch and bound over a
// knapsack cover, with a rate for what is needed and a price for each that is OUT.
// `places` makes the table of costs, `rating` finds rates and prices, `totals` makes the table of sums, `bounds` has the lower bounds of a node, `nodes`
// what comes of a place, `walk` the search; here is the week: start at `week_least`.
#![tactic(auto)]

ghost use Rattle.std.specs.Prelude.{◌≡◌, ◌⊎◌, ◌+◌, ◌-◌, ◌*◌, ◌<◌, ◌≤◌};
ghost use Rattle.sums.specs.NumSet.{has};
ghost use Rattle.instance.specs.File.{problem};
ghost use Rattle.blame.specs.Priced.{WeekLeast};
ghost use Rattle.tables.specs.Tables.{price_in};
ghost use Rattle.states.specs.Choices.{ChoiceFloor};
ghost use Rattle.states.specs.SearchTables.{CostsInRange, MOST_SCORE, places_of};
ghost use Rattle.states.specs.Weeks.{SCALE, WeekNodeIs, WeekDue};

use instance::{Euro, File};
use tables::TABLES;

mod bounds;
mod nodes;
mod places;
mod rating;
mod totals;
mod walk;

// Costs are so many times as large in the search, so that what a kilogram is worth is told finely enough.
pub const SCALE: u64 = 4096;

// The state of a place.
#[derive(Clone, Copy)]
pub enum PlaceState {
    On,
    Off,
    Out,
}

// What each unit of a week gives where it is ON, what its states cost, and the units with which it clashes; 0 behind the last unit.
#[derive(Clone, Copy)]
pub struct Costs {
    pub caps: [u64; 16],
    pub ons: [u64; 16],
    pub offs: [u64; 16],
    pub outs: [u64; 16],
    pub clashes: [u32; 16],
}

// What bounds are made of, at place k for the places below k: sums of what they give, of idle costs, gains and flat costs, and of idle costs and gains
// where places are counted; and in row k of the last at place j what any j of them give at most.
#[derive(Clone, Copy)]
pub struct Sums {
    pub rooms: [u64; 17],
    pub idles: [u64; 17],
    pub gains: [u64; 17],
    pub flats: [u64; 17],
    pub counted_idles: [u64; 17],
    pub counted_gains: [u64; 17],
    pub tops: [[u64; 17]; 17],
}

// What bounds are taken at: what a kilogram is worth, and what a place that is OUT is charged; the same where places are counted and not weighed; and
// the places that are never OUT.
#[derive(Clone, Copy)]
pub struct Advice {
    pub rate: u64,
    pub price: u64,
    pub unit: u64,
    pub fee: u64,
    pub shut: u32,
}

// What the places decided so far leave: the need, the crews, the places that may not be OUT, what they cost, and those of them that are OUT.
#[derive(Clone, Copy)]
pub struct StateNode {
    pub need: u64,
    pub crews: u64,
    pub bar: u32,
    pub score: u64,
    pub out: u32,
}

// The least so far, the nodes that may still be looked into, and the places OUT in the best choice met.
#[derive(Clone, Copy)]
pub struct StateFound {
    pub best: u64,
    pub fuel: u64,
    pub out: u32,
}

// What is known once a node has been looked at: it is done with, or its highest place is still to be decided.
#[derive(Clone, Copy)]
pub enum Looked {
    Done(StateFound),
    Open(StateFound),
}

// A week with some units out: the units that need no try, how many more crews allow, what it is worth at most, and the nodes to look into.
#[derive(Clone, Copy)]
pub struct WeekTask {
    pub week: usize,
    pub out: u32,
    pub shut: u32,
    pub room: usize,
    pub most: Euro,
    pub fuel: u64,
}

// What a week is worth at least, the units out in the best choice met, which are advice, and the nodes that were not needed.
#[derive(Clone, Copy)]
pub struct WeekFloor {
    pub value: Euro,
    pub out: u32,
    pub fuel: u64,
}

// What the search counts as euros: rounded up, since what it bounds is a whole number of them.
fn unscaled(best: u64) -> Euro
    requires { best ≤ MOST_SCORE }
    ensures { result.0 * SCALE ≤ best + (SCALE - 1) }
{
    Euro(best.div_ceil(SCALE))
}

// What every choice for the first places costs at least, or the best so far, if that is less, from a node whose barred places are never OUT. With fuel
// enough it is what the cheapest costs.
fn search(costs: &Costs, units: usize, y: StateNode, low: StateFound) -> StateFound
    requires { CostsInRange costs.now × (units ≤ 16) × (y.crews ≤ 16) × (low.best ≤ MOST_SCORE) }
    ensures answer { ChoiceFloor (places_of costs.now y.bar) units y.need y.crews (has y.bar) y.score result.best }
    ensures less { result.best ≤ low.best }
{
    let tops = totals::week_tops(costs);
    let a = rating::advise(costs, &tops, units, y.bar, y.need, y.crews as usize);
    let sums = totals::week_sums(costs, tops, a);
    walk::walk(costs, &sums, a, units, y, low)
}

// The crews left, as far as the file has any.
fn crews_left(file: &File, room: usize) -> u64
    ensures { (result ≤ 16) × (result ≤ room) × ((result ≡ room) ⊎ (result ≡ (problem file.now).crews)) }
{
    room.min(file.crews()) as u64
}

// A week before any unit is decided.
fn week_node(file: &File, w: WeekTask) -> StateNode
    requires { (w.week < file.now.layout.weeks) }
    ensures { WeekNodeIs (problem file.now) w result }
{
    StateNode {
        need: file.demand(w.week).0,
        crews: crews_left(file, w.room),
        bar: w.shut,
        score: 0,
        out: w.out,
    }
}

// What week w is worth at least with its units out, and others perhaps, by three states for each unit; no more than its most. Any most and any fuel
// give a lower bound; with a most that some choice comes to, and fuel enough, it is the least.
pub fn week_least(file: &File, tables: &[u32; TABLES], w: WeekTask) -> WeekFloor
    requires { WeekDue file.now tables.now w }
    ensures answer { WeekLeast (problem file.now) (price_in tables.now) w.week (has w.out) result.value.0 }
    ensures less { result.value.0 ≤ w.most.0 }
{
    let costs = places::week_costs(file, tables, w.week, w.out);
    let y = week_node(file, w);
    let low = StateFound {
        best: w.most.0 * SCALE,
        fuel: w.fuel,
        out: w.out,
    };
    let found = search(&costs, file.layout.units, y, low);
    WeekFloor {
        value: unscaled(found.best),
        out: found.out,
        fuel: found.fuel,
    }
}
