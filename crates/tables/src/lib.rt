// What a walk reads and never changes, in one table of words behind one reference: prices for units that are not out, the partners of each unit in
// excluded pairs, what each unit costs OFF, what overhauls cost from each start, what weeks are worth with nobody out, all OFF costs and prices
// together, and the weeks that are hard to choose units out for, which is advice. Each part is reached by an accessor of its own name. Weeks and units count from 0, starts from 1.
#![tactic(auto)]

ghost use Rattle.std.specs.Prelude.{◌≡◌, ◌+◌, ◌*◌, ◌<◌, ◌≤◌};
ghost use Rattle.sums.specs.Sum.{sum_to};
ghost use Rattle.instance.specs.File.{problem};
ghost use Rattle.tables.specs.Tables.{MOST_PRICE, AMOUNTS, price_in, partners_in, off_in, excess_in, root_in, total_in, hard_in, unit_total, Prices, First};

use instance::{Euro, File};
use model::Layout;

// The words of the table.
pub const TABLES: usize = 1993;
// Where the parts after the prices begin.
pub const PARTNERS: usize = 832;

pub const OFFS: usize = 848;

pub const START_COSTS: usize = 864;

pub const ROOT_VALUES: usize = 1888;

pub const TOTAL: usize = 1940;

pub const HARD_WEEKS: usize = 1941;
// The highest price (D74).
pub const MOST_PRICE: u64 = 4194304;

// A word as an amount.
pub fn amount(word: u32) -> Euro
    ensures { (result.0 ≡ word) × (result.0 < AMOUNTS) }
{
    Euro(word as u64)
}

// The price of unit i in week t: what it pays in that week unless it is out.
pub fn price(tables: &[u32; TABLES], t: usize, i: usize) -> Euro
    requires { (t < 52) × (i < 16) × Prices tables.now }
    ensures { (result.0 ≡ price_in tables.now t i) × (result.0 ≤ MOST_PRICE) }
{
    amount(tables[t * 16 + i])
}

// The units that form an excluded pair with unit i.
pub fn partners(tables: &[u32; TABLES], i: usize) -> u32
    requires { i < 16 }
    ensures { result ≡ partners_in tables.now i }
{
    tables[PARTNERS + i]
}

// What unit i costs OFF in all weeks.
pub fn off_cost(tables: &[u32; TABLES], i: usize) -> Euro
    requires { i < 16 }
    ensures { (result.0 ≡ off_in tables.now i) × (result.0 < AMOUNTS) }
{
    amount(tables[OFFS + i])
}

// What the overhaul of unit i costs from a start above its least; the least itself for start 0.
pub fn excess(tables: &[u32; TABLES], i: usize, start: usize) -> Euro
    requires { (i < 16) × (start < 64) }
    ensures { (result.0 ≡ excess_in tables.now i start) × (result.0 < AMOUNTS) }
{
    amount(tables[START_COSTS + i * 64 + start])
}

// What week t is worth with nobody out.
pub fn root_value(tables: &[u32; TABLES], t: usize) -> Euro
    requires { t < 52 }
    ensures { (result.0 ≡ root_in tables.now t) × (result.0 < AMOUNTS) }
{
    amount(tables[ROOT_VALUES + t])
}

// All OFF costs and all prices.
pub fn total(tables: &[u32; TABLES]) -> Euro
    ensures { (result.0 ≡ total_in tables.now) × (result.0 < AMOUNTS) }
{
    amount(tables[TOTAL])
}

// Whether week t has too many sets of units out to be tried one by one.
pub fn hard_week(tables: &[u32; TABLES], t: usize) -> bool
    requires { t < 52 }
    ensures { result ≡ hard_in tables.now t }
{
    0 < tables[HARD_WEEKS + t]
}

// The OFF cost of unit i in all weeks, and its prices.
fn unit_total(l: Layout, tables: &[u32; TABLES], i: usize) -> Euro
    requires { (l.weeks ≤ 52) × (i < 16) × Prices tables.now }
    ensures { (result.0 ≡ unit_total tables.now l.weeks i) × (result.0 ≤ AMOUNTS + 52 * MOST_PRICE) }
{
    let weeks = l.weeks;
    let mut sum = off_cost(tables, i);
    for t in 0..weeks {
        sum += price(tables, t, i);
    }
    sum
}

// All OFF costs and all prices, added up.
pub fn sum_total(l: Layout, tables: &[u32; TABLES]) -> Euro
    requires { (l.weeks ≤ 52) × (l.units ≤ 16) × Prices tables.now }
    ensures { (result.0 ≡ sum_to l.units (unit_total tables.now l.weeks)) × (result.0 ≤ 16 * (AMOUNTS + 52 * MOST_PRICE)) }
{
    let n = l.units;
    let mut sum = Euro(0);
    for i in 0..n {
        sum += unit_total(l, tables, i);
    }
    sum
}

// The table of a file before prices are found: each unit's partners and OFF cost, and 0 elsewhere.
pub fn first(file: &File) -> [u32; TABLES]
    ensures { First (problem file.now) (problem file.now).units result }
{
    let units = file.layout.units;
    let mut tables: [u32; TABLES] = [0; TABLES];
    for i in 0..units {
        tables[PARTNERS + i] = file.partners(i);
        tables[OFFS + i] = overhaul::off_weeks(file, i).0 as u32;
    }
    tables
}
