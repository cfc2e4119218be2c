// Rounds in which prices are multiplied: up where a unit is out by its least start alone, down where it is out by the week alone, by shorter and shorter
// steps. They keep their scale so; added steps shrink all prices together, which looks like progress and shows nothing.
ghost use Rattle.std.specs.Prelude.{◌≡◌, ◌+◌, ◌<◌, ◌≤◌};
ghost use Rattle.sums.specs.Table.{AtMost};
ghost use Rattle.instance.specs.File.{problem};
ghost use Rattle.tables.specs.Tables.{MOST_PRICE, Prices};
ghost use Rattle.farkas.specs.Sums.{ShowsNone};
ghost use Rattle.prices.specs.Ranges.{LEVEL, MOST_PUSH, PricedFile, Moved};

use crate::fixed::{Pricing, fixed_prices};
use crate::shows_none;
use instance::{Euro, File};
use model::Layout;
use prices::{LEVEL, PLACES, Wants};
use tables::{MOST_PRICE, TABLES};

// The most rounds, for each unit of the file.
const ROUNDS: usize = 16;
// After so many rounds steps are half as long, after twice as many a third.
const HALVING: usize = 16;

// The magnitude of a push that moves a price by all of it.
const FULL: u64 = 1024;

// How far a price moves in a round, whose steps are so many times shorter than the first.
fn step_of(price: u64, magnitude: u64, shorter: u64) -> u64
    requires { (price ≤ MOST_PRICE) × (magnitude ≤ LEVEL) × (0 < shorter) }
    ensures { result ≤ MOST_PRICE + 1 }
{
    if magnitude == 0 {
        return 0;
    }
    price * magnitude / FULL / shorter + 1
}

// A price up to the highest, and down to 1.
fn raised(price: u64, by: u64) -> u64
    requires { (price ≤ MOST_PRICE) × (by ≤ MOST_PRICE + 1) }
    ensures { result ≤ MOST_PRICE }
{
    (price + by).min(MOST_PRICE)
}

fn lowered(price: u64, by: u64) -> u64
    requires { price ≤ MOST_PRICE }
    ensures { result ≤ MOST_PRICE }
{
    if price <= by {
        return 1;
    }
    price - by
}

// A price a round on; a price of 0 stays.
fn multiplied(price: Euro, push: u32, shorter: u64) -> u64
    requires { (price.0 ≤ MOST_PRICE) × (push ≤ MOST_PUSH) × (0 < shorter) }
    ensures { result ≤ MOST_PRICE }
{
    let old = price.0;
    if old == 0 {
        return 0;
    }
    let by = step_of(old, prices::magnitude(push), shorter);
    if push < LEVEL {
        return lowered(old, by);
    }
    raised(old, by)
}

// Moves the prices of week t.
fn multiply_week(
    l: Layout,
    t: usize,
    shorter: u64,
    push: &[u32; PLACES],
    tables: &mut [u32; TABLES],
)
    requires { (l.units ≤ 16) × (t < 52) × (0 < shorter) × AtMost MOST_PUSH push.now × Prices tables.old }
    ensures { Moved tables.old tables.new }
{
    let units = l.units;
    for i in 0..units {
        let place = t * 16 + i;
        let price = tables::price(tables, t, i);
        tables[place] = multiplied(price, prices::push_at(push, place), shorter) as u32;
    }
}

// Moves all prices.
fn multiply(l: Layout, shorter: u64, push: &[u32; PLACES], tables: &mut [u32; TABLES])
    requires { (l.weeks ≤ 52) × (l.units ≤ 16) × (0 < shorter) × AtMost MOST_PUSH push.now × Prices tables.old }
    ensures { Moved tables.old tables.new }
{
    let weeks = l.weeks;
    for t in 0..weeks {
        multiply_week(l, t, shorter, push, tables);
    }
}

// A round: pushes, a step, and the test at the new prices.
fn run_round(
    file: &File,
    shorter: u64,
    tables: &mut [u32; TABLES],
    push: &mut [u32; PLACES],
    wants: &mut Wants,
) -> bool
    requires { PricedFile file.now tables.old × AtMost MOST_PUSH push.old × (0 < shorter) }
    ensures ranges { PricedFile file.now tables.new × AtMost MOST_PUSH push.new }
    ensures none { ShowsNone (problem file.now) result }
{
    prices::update_momentum(file, wants, push);
    multiply(file.layout, shorter, push, tables);
    shows_none(file, tables, wants)
}

// Whether rounds from prices for every week that an overhaul may take show that there is no schedule. Of the table given all but the prices is kept.
pub fn rounds_none(file: &File, tables: &[u32; TABLES]) -> bool
    requires { PricedFile file.now tables.now }
    ensures { ShowsNone (problem file.now) result }
{
    let most = file.layout.units * ROUNDS;
    let mut wants = Wants::NONE;
    let mut push: [u32; PLACES] = [LEVEL; PLACES];
    let mut next = fixed_prices(file, tables, Pricing::Sometimes);
    if shows_none(file, &next, &mut wants) {
        return true;
    }
    for n in 0..most {
        let shorter = (1 + n / HALVING) as u64;
        if run_round(file, shorter, &mut next, &mut push, &mut wants) {
            return true;
        }
    }
    false
}
