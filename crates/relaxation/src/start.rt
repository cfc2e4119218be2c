// A week before units are chosen: the prices left, how many more units crews allow out, and the units that need no try.
ghost use Rattle.std.specs.Prelude.{◌≡◌, ◌||◌, ℕ, ◌+◌, ◌<◌, ◌≤◌, eqb};
ghost use Rattle.sums.specs.Sum.{counts_one};
ghost use Rattle.sums.specs.NumSet.{has, only_in, complement};
ghost use Rattle.instance.specs.File.{problem};
ghost use Rattle.tables.specs.Tables.{MOST_WEEK_PRICES, price_in, Prices};
ghost use Rattle.relaxation.specs.Relaxed.{WeekAt};
ghost use Rattle.relaxation.specs.Choosing.{NeedlessUnits, PricesLeft, CrewsLeft};

use instance::File;
use tables::TABLES;

// A sum of prices, with that of unit i in week t unless it is out.
fn price_added(tables: &[u32; TABLES], t: usize, out: u32, i: usize, sum: u64) -> u64
    requires { (t < 52) × (i < 16) × (sum ≤ MOST_WEEK_PRICES) × Prices tables.now }
    ensures { result ≡ sum + only_in (complement (has out)) (price_in tables.now t) i }
{
    if sets::has(out, i) {
        return sum;
    }
    let own = tables::price(tables, t, i);
    sum + own.0
}

// At place k what the prices of the units below k come to, of those not out.
pub fn prices_left(tables: &[u32; TABLES], units: usize, t: usize, out: u32) -> [u64; 17]
    requires { (t < 52) × (units ≤ 16) × Prices tables.now }
    ensures { PricesLeft (price_in tables.now) t (has out) units result }
{
    let mut table: [u64; 17] = [0; 17];
    for i in 0..units {
        table[i + 1] = price_added(tables, t, out, i, table[i]);
    }
    table
}

// One more crew is taken where unit i is out.
fn room_after(out: u32, i: usize, room: usize) -> usize
    requires { i < 32 }
    ensures { room ≤ result + only_in (has out) counts_one i }
{
    if sets::has(out, i) {
        if 0 < room {
            return room - 1;
        }
    }
    room
}

// How many more units the crews allow out.
pub fn room_left(file: &File, out: u32) -> usize
    ensures { CrewsLeft (problem file.now) (has out) result }
{
    let units = file.layout.units;
    let mut room = file.crews();
    for i in 0..units {
        room = room_after(out, i, room);
    }
    room
}

// Units that need no try, with unit i and those that may not be out with it.
pub fn shut_more(shut: u32, i: usize, partners: u32) -> u32
    requires { i < 32 }
    ensures { (k : ℕ) → has result k ≡ ((has shut k || eqb k i) || has partners k) }
{
    sets::union(sets::with(shut, i), partners)
}

// What unit i adds to the units that need no try: itself and its partners where it is out, itself where its price is 0.
fn shut_after(file: &File, tables: &[u32; TABLES], t: usize, out: u32, i: usize, shut: u32) -> u32
    requires { WeekAt file.now tables.now t × (i < file.now.layout.units) × NeedlessUnits (problem file.now) (price_in tables.now) t (has out) i shut }
    ensures { NeedlessUnits (problem file.now) (price_in tables.now) t (has out) (i + 1) result }
{
    if sets::has(out, i) {
        return shut_more(shut, i, tables::partners(tables, i));
    }
    let own = tables::price(tables, t, i);
    if own.0 == 0 {
        return sets::with(shut, i);
    }
    shut
}

// The units that need no try with these out.
pub fn shut_units(file: &File, tables: &[u32; TABLES], t: usize, out: u32) -> u32
    requires { WeekAt file.now tables.now t }
    ensures { NeedlessUnits (problem file.now) (price_in tables.now) t (has out) (problem file.now).units result }
{
    let units = file.layout.units;
    let mut shut = 0;
    for i in 0..units {
        shut = shut_after(file, tables, t, out, i, shut);
    }
    shut
}
