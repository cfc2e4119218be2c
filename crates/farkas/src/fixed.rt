// Three tables of prices that need no search, and the test at each: a price where the overhaul of a unit takes a week whatever its start, where it may
// take it, and the same by what the unit gives.
ghost use Rattle.std.specs.Prelude.{◌≡◌, ◌<◌, ◌≤◌};
ghost use Rattle.instance.specs.File.{problem};
ghost use Rattle.tables.specs.Tables.{MOST_PRICE, Prices};
ghost use Rattle.farkas.specs.Sums.{ShowsNone};
ghost use Rattle.prices.specs.Ranges.{PricedFile, Moved};

use crate::{shows_none, week};
use instance::{File, Kilo};
use overhaul::Starts;
use prices::Wants;
use tables::{MOST_PRICE, TABLES};

// A price of one.
pub const ONE: u64 = 4096;

// Which weeks of a unit have a price, and by what it is weighed.
#[derive(Clone, Copy)]
pub enum Pricing {
    Always,
    Sometimes,
    Weighed,
}

// Whether every permitted start has a unit out in week t.
fn always_out(starts: Starts, duration: usize, t: usize) -> bool
    requires { (starts.last ≤ 52) × (duration ≤ 52) × (t < 52) }
{
    starts.first <= starts.last && starts.last <= t + 1 && t + 1 < starts.first + duration
}

// Whether some permitted start has it out.
fn sometimes_out(starts: Starts, duration: usize, t: usize) -> bool
    requires { (starts.last ≤ 52) × (duration ≤ 52) × (t < 52) }
{
    starts.first <= t + 1 && t + 1 < starts.last + duration
}

// A price, or none.
fn price_where(yes: bool, price: u64) -> u64
    requires { price ≤ MOST_PRICE }
    ensures { result ≤ MOST_PRICE }
{
    if yes { price } else { 0 }
}

// One, by what a unit gives against the mean of all.
fn weighed(given: Kilo, mean: u64) -> u64
    requires { given.0 ≤ 1000000 }
    ensures { result ≤ MOST_PRICE }
{
    if mean == 0 {
        return ONE;
    }
    (ONE * given.0 / mean).min(MOST_PRICE)
}

// The price of unit i in week t, where the mean of what units give is this.
fn fixed_price(file: &File, by: Pricing, mean: u64, t: usize, i: usize) -> u64
    requires { (t < file.now.layout.weeks) × (i < file.now.layout.units) }
    ensures { result ≤ MOST_PRICE }
{
    let starts = overhaul::starts_of(file, i);
    let duration = file.duration(i);
    match by {
        Pricing::Always => price_where(always_out(starts, duration, t), ONE),
        Pricing::Sometimes => price_where(sometimes_out(starts, duration, t), ONE),
        Pricing::Weighed => {
            let price = weighed(file.capacity(t, i), mean);
            price_where(sometimes_out(starts, duration, t), price)
        }
    }
}

// Puts the prices of week t.
fn put_week(file: &File, by: Pricing, t: usize, tables: &mut [u32; TABLES])
    requires { (t < file.now.layout.weeks) × Prices tables.old }
    ensures { Moved tables.old tables.new }
{
    let units = file.layout.units;
    let mean = week::all_given(file, t).0 / units as u64;
    for i in 0..units {
        tables[t * 16 + i] = fixed_price(file, by, mean, t, i) as u32;
    }
}

// A table with such prices.
pub fn fixed_prices(file: &File, tables: &[u32; TABLES], by: Pricing) -> [u32; TABLES]
    requires { PricedFile file.now tables.now }
    ensures { PricedFile file.now result }
{
    let weeks = file.layout.weeks;
    let mut next = *tables;
    for t in 0..weeks {
        put_week(file, by, t, &mut next);
    }
    next
}

// Whether the prices of one of the tables show that there is no schedule.
fn table_none(file: &File, tables: &[u32; TABLES], by: Pricing) -> bool
    requires { PricedFile file.now tables.now }
    ensures { ShowsNone (problem file.now) result }
{
    let mut wants = Wants::NONE;
    let next = fixed_prices(file, tables, by);
    shows_none(file, &next, &mut wants)
}

// Whether the prices of one of three fixed tables show that there is no schedule. Of the table given all but the prices is kept.
pub fn fixed_none(file: &File, tables: &[u32; TABLES]) -> bool
    requires { PricedFile file.now tables.now }
    ensures { ShowsNone (problem file.now) result }
{
    if table_none(file, tables, Pricing::Always) {
        return true;
    }
    if table_none(file, tables, Pricing::Sometimes) {
        return true;
    }
    table_none(file, tables, Pricing::Weighed)
}
