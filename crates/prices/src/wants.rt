// What units and weeks want at the prices of a round: a unit the start that costs it least, a week the units out with which its value is least.
ghost use Rattle.std.specs.Prelude.{◌≡◌, IfSome, ◌+◌, ◌*◌, ◌<◌, ◌≤◌};
ghost use Rattle.model.specs.Commitment.{NO_RUN};
ghost use Rattle.instance.specs.File.{problem};
ghost use Rattle.memo.specs.Memo.{Right, Others};
ghost use Rattle.tables.specs.Tables.{MOST_PRICE};
ghost use Rattle.prices.specs.Ranges.{MOST_BOUND, MOST_FIRST_COST, MOST_UNIT_COST, PricedFile};

use crate::effort;
use crate::effort::Work;
use instance::{Euro, File};
use model::NO_RUN;
use tables::TABLES;

// The units that each week wants out, and the least start of each unit.
#[derive(Clone, Copy)]
pub struct Wants {
    pub out: [u32; 52],
    pub starts: [u32; 16],
}

impl Wants {
    // Nothing yet.
    pub const NONE: Wants = Wants {
        out: [0; 52],
        starts: [0; 16],
    };
}

// A start of a unit, and what it costs, prices and OFF costs included.
#[derive(Clone, Copy)]
struct PricedStart {
    cost: Euro,
    start: usize,
}

// ---- units

// What week t of unit i's overhaul costs, its price included.
fn priced_week(file: &File, tables: &[u32; TABLES], t: usize, i: usize) -> Euro
    requires { PricedFile file.now tables.now × (t < file.now.layout.weeks) × (i < file.now.layout.units) }
    ensures { result.0 ≤ 250000 + MOST_PRICE }
{
    let price = tables::price(tables, t, i);
    file.maint_cost(t, i) + price
}

// What a week of unit i's overhaul costs, its price included, and OFF in another week.
fn swap_cost(file: &File, tables: &[u32; TABLES], i: usize, inside: usize, outside: usize) -> Euro
    requires { PricedFile file.now tables.now × (i < file.now.layout.units) × (inside < file.now.layout.weeks) × (outside < file.now.layout.weeks) }
    ensures { result.0 ≤ 500000 + MOST_PRICE }
{
    let off = file.off_cost(outside, i);
    priced_week(file, tables, inside, i) + off
}

// What the overhaul of unit i costs from its first permitted start, its prices included, with OFF in all other weeks.
fn first_cost(file: &File, tables: &[u32; TABLES], i: usize, first: usize, duration: usize) -> Euro
    requires { PricedFile file.now tables.now × (i < file.now.layout.units) × (first + duration ≤ file.now.layout.weeks) }
    ensures { result.0 ≤ MOST_FIRST_COST }
{
    let mut sum = tables::off_cost(tables, i);
    // Each time round, `sum` is what k weeks of the overhaul cost, with OFF in all other weeks.
    for k in 0..duration {
        let more = sum + priced_week(file, tables, first + k, i);
        let off = file.off_cost(first + k, i);
        sum = more.saturating_sub(off);
    }
    sum
}

// The cheapest of unit i's permitted starts, the first of equals, if there is one.
fn least_start(file: &File, tables: &[u32; TABLES], i: usize) -> Option<PricedStart>
    requires { PricedFile file.now tables.now × (i < file.now.layout.units) }
    ensures { IfSome result (λ s. (s.cost.0 ≤ MOST_UNIT_COST) × (s.start ≤ 52)) }
{
    let starts = overhaul::starts_of(file, i);
    let start = starts.first;
    let last = starts.last;
    if last < start {
        return None;
    }
    let duration = file.duration(i);
    let mut cost = first_cost(file, tables, i, start - 1, duration);
    let mut least = PricedStart { cost, start };
    // Each time round, `cost` is what start s costs, and `least` the cheapest up to it; to the next start the overhaul loses a week and gains one, and
    // these two are OFF the other way round.
    for s in start..last {
        let old = s - 1;
        let new = old + duration;
        let gone = swap_cost(file, tables, i, old, new);
        let come = swap_cost(file, tables, i, new, old);
        cost = (cost + come).saturating_sub(gone);
        if cost.0 < least.cost.0 {
            least = PricedStart { cost, start: s + 1 };
        }
    }
    Some(least)
}

// What all units cost at least, if each has a permitted start; their least starts are written.
fn choose_starts(file: &File, tables: &[u32; TABLES], wants: &mut Wants) -> Option<Euro>
    requires { PricedFile file.now tables.now }
    ensures { IfSome result (λ sum. sum.0 ≤ 16 * MOST_UNIT_COST) }
{
    let mut sum = Euro(0);
    for i in 0..file.layout.units {
        let least = least_start(file, tables, i)?;
        wants.starts[i] = least.start as u32;
        sum += least.cost;
    }
    Some(sum)
}

// ---- weeks

// The value of all weeks, if each has a run; the units that each wants out are written, and what it needed.
fn choose_weeks(
    file: &File,
    tables: &[u32; TABLES],
    wants: &mut Wants,
    work: &mut Work,
    memo: &mut [u32],
) -> Option<Euro>
    requires { PricedFile file.now tables.now × Right (problem file.now) memo.old }
    ensures answer { IfSome result (λ sum. sum.0 ≤ 52 * NO_RUN) }
    ensures right { Right (problem file.now) memo.new × Others memo.old memo.new }
{
    let mut sum = Euro(0);
    // Each time round, the weeks below t have runs, and `sum` is their value.
    for t in 0..file.layout.weeks {
        let effort = effort::effort_of(file.layout, work, t);
        let choice = relaxation::best_choice(file, tables, t, 0, effort, memo);
        if NO_RUN <= choice.value.0 {
            return None;
        }
        effort::note_work(work, t, effort, choice);
        wants.out[t] = choice.out;
        sum += choice.value;
    }
    Some(sum)
}

// ---- the bound

// What every schedule costs at least by these prices: overhauls and weeks, less all OFF costs and prices; nothing where a unit has no permitted start
// or a week no run. What units and weeks want is written.
pub fn solve_relaxation(
    file: &File,
    tables: &[u32; TABLES],
    wants: &mut Wants,
    work: &mut Work,
    memo: &mut [u32],
) -> Option<Euro>
    requires { PricedFile file.now tables.now × Right (problem file.now) memo.old }
    ensures bound { IfSome result (λ root. root.0 < MOST_BOUND) }
    ensures right { Right (problem file.now) memo.new × Others memo.old memo.new }
{
    let units = choose_starts(file, tables, wants)?;
    let weeks = choose_weeks(file, tables, wants, work, memo)?;
    Some((units + weeks).saturating_sub(tables::sum_total(file.layout, tables)))
}
