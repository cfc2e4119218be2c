// An overhaul on the free plant: what the prices of its weeks come to at least.
ghost use Rattle.std.specs.Prelude.{◌≡◌, ◌≤◌};
ghost use Rattle.instance.specs.File.{problem};
ghost use Rattle.tables.specs.Tables.{price_in, Priced};
ghost use Rattle.blame.specs.Free.{span_price, UnitFree};
ghost use Rattle.dual.specs.Made.{UnitAt, StartAt};
ghost use Rattle.farkas.specs.Sums.{MOST_SPAN_PRICE, Lower};

use instance::{Euro, File};
use tables::TABLES;

// What the prices of an overhaul come to at most: 52 weeks at the highest.
pub const MOST_SPAN_PRICE: u64 = 218103808;

// A start, and what the prices of the weeks of its overhaul come to.
#[derive(Clone, Copy)]
pub struct FreeStart {
    pub price: Euro,
    pub start: u32,
}

// The prices of the weeks of unit i's overhaul from a permitted start.
fn span_price(file: &File, tables: &[u32; TABLES], i: usize, start: usize) -> Euro
    requires { StartAt file.now i start × Priced (problem file.now) tables.now }
    ensures { result.0 ≡ span_price (problem file.now) (price_in tables.now) i start }
{
    let duration = file.duration(i);
    let first = start - 1;
    let mut sum = Euro(0);
    for k in 0..duration {
        sum += tables::price(tables, first + k, i);
    }
    sum
}

// The lower of two starts, the first of equals.
fn lower(least: FreeStart, price: Euro, start: u32) -> FreeStart
    ensures { Lower least.price.0 price.0 result.price.0 }
{
    if price.0 < least.price.0 {
        return FreeStart { price, start };
    }
    least
}

// The permitted start of unit i from which these prices are least, the first of equals. The start is advice.
pub fn free_unit(file: &File, tables: &[u32; TABLES], i: usize) -> FreeStart
    requires { UnitAt file.now tables.now i }
    ensures { UnitFree (problem file.now) (price_in tables.now) i result.price.0 × (result.price.0 ≤ MOST_SPAN_PRICE) }
{
    let starts = overhaul::starts_of(file, i);
    let mut least = FreeStart {
        price: Euro(MOST_SPAN_PRICE),
        start: 0,
    };
    for s in starts.first..starts.last + 1 {
        let price = span_price(file, tables, i, s);
        least = lower(least, price, s as u32);
    }
    least
}
