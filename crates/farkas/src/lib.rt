// Prices at no costs, which may show that there is no schedule at all. On the same plant with all costs 0 a schedule costs nothing, so where overhauls
// and weeks come to more than all prices there is none, whatever it may cost (in the field, a Farkas certificate). Any prices will do; those tried
// are three fixed tables, and rounds in which prices are multiplied. Weeks and units count from 0, starts from 1.
// `week` is what a week comes to, `unit` what an overhaul does, `fixed` has the tables, `rounds` the rounds, and here is the test at given prices:
// start at `try_fixed`.
#![tactic(auto)]

ghost use Rattle.std.specs.Prelude.{◌≡◌, ◌*◌, ◌<◌, ◌≤◌};
ghost use Rattle.sums.specs.Sum.{row_sum};
ghost use Rattle.instance.specs.File.{problem};
ghost use Rattle.tables.specs.Tables.{MOST_WEEK_PRICES, price_in, Prices};
ghost use Rattle.blame.specs.Priced.{price_sum};
ghost use Rattle.blame.specs.Free.{UnitFree, WeekFree};
ghost use Rattle.prices.specs.Ranges.{PricedFile};
ghost use Rattle.farkas.specs.Sums.{MOST_FREE, Summed, ShowsNone};

use instance::{Euro, File};
use model::Layout;
use prices::Wants;
use tables::TABLES;

mod fixed;
mod rounds;
mod unit;
mod week;

// ---- what overhauls and weeks come to

// What all overhauls come to at least; the start that each unit wants is written.
fn units_sum(file: &File, tables: &[u32; TABLES], wants: &mut Wants) -> Euro
    requires { PricedFile file.now tables.now }
    ensures { Summed (UnitFree (problem file.now) (price_in tables.now)) (problem file.now).units result.0
        × (result.0 ≤ MOST_FREE) }
{
    let units = file.layout.units;
    let mut sum = Euro(0);
    for i in 0..units {
        let least = unit::free_unit(file, tables, i);
        wants.starts[i] = least.start;
        sum += least.price;
    }
    sum
}

// What all weeks come to at least; the units that each wants out are written.
fn weeks_sum(file: &File, tables: &[u32; TABLES], wants: &mut Wants) -> Euro
    requires { PricedFile file.now tables.now }
    ensures { Summed (WeekFree (problem file.now) (price_in tables.now)) (problem file.now).weeks result.0
        × (result.0 ≤ MOST_FREE) }
{
    let weeks = file.layout.weeks;
    let mut sum = Euro(0);
    for t in 0..weeks {
        let least = week::free_week(file, tables, t);
        wants.out[t] = least.out;
        sum += least.value;
    }
    sum
}

// The prices of week t.
fn week_prices(l: Layout, tables: &[u32; TABLES], t: usize) -> Euro
    requires { (l.units ≤ 16) × (t < 52) × Prices tables.now }
    ensures { (result.0 ≡ row_sum l.units (price_in tables.now) t) × (result.0 ≤ MOST_WEEK_PRICES) }
{
    let units = l.units;
    let mut sum = Euro(0);
    for i in 0..units {
        sum += tables::price(tables, t, i);
    }
    sum
}

// All prices.
fn all_prices(file: &File, tables: &[u32; TABLES]) -> Euro
    requires { PricedFile file.now tables.now }
    ensures { result.0 ≡ price_sum (problem file.now) (price_in tables.now) }
{
    let weeks = file.layout.weeks;
    let mut sum = Euro(0);
    for t in 0..weeks {
        sum += week_prices(file.layout, tables, t);
    }
    sum
}

// ---- the test

// Whether these prices show that there is no schedule: overhauls and weeks come to more than all of them. What units and weeks want is written.
pub fn shows_none(file: &File, tables: &[u32; TABLES], wants: &mut Wants) -> bool
    requires { PricedFile file.now tables.now }
    ensures { ShowsNone (problem file.now) result }
{
    let units = units_sum(file, tables, wants);
    let weeks = weeks_sum(file, tables, wants);
    let all = all_prices(file, tables);
    all.0 < (units + weeks).0
}

// What is known so far: whether the rounds were made, and whether it was shown that there is no schedule.
#[derive(Clone, Copy)]
pub struct Findings {
    pub tried: bool,
    pub shown: bool,
}

// What three fixed tables show. Of the table given all but the prices is kept.
pub fn try_fixed(file: &File, tables: &[u32; TABLES]) -> Findings
    requires { PricedFile file.now tables.now }
    ensures { ShowsNone (problem file.now) result.shown }
{
    Findings {
        tried: false,
        shown: fixed::fixed_none(file, tables),
    }
}

// What the rounds show, made once: where they were made it is what is known.
pub fn try_rounds(file: &File, tables: &[u32; TABLES], known: Findings) -> Findings
    requires { PricedFile file.now tables.now × ShowsNone (problem file.now) known.shown }
    ensures { ShowsNone (problem file.now) result.shown }
{
    if known.tried {
        return known;
    }
    Findings {
        tried: true,
        shown: rounds::rounds_none(file, tables),
    }
}
