// A week of the free plant: which units may be out so that the prices of the others are least. Units are out or stay from the highest down, out first;
// the search turns back where the capacities left fall short of the need, and where the prices that could still be saved bring it no further.
ghost use Rattle.std.specs.Prelude.{◌≡◌, ◌+◌, ◌*◌, ◌<◌, ◌≤◌};
ghost use Rattle.sums.specs.Sum.{sum_to};
ghost use Rattle.sums.specs.NumSet.{has};
ghost use Rattle.sums.specs.Table.{entry};
ghost use Rattle.instance.specs.File.{problem};
ghost use Rattle.blame.specs.Free.{WeekFree};
ghost use Rattle.tables.specs.Tables.{MOST_PRICE, MOST_WEEK_PRICES, price_in};
ghost use Rattle.farkas.specs.Choices.{NEVER, TOP, CAPS, NO_WEEK, NeverTo, NeverDue, OpenPrice, UnitAdded, SumsDue, AtRoot, FreeAt, Savable, NodeDue, NodeAt, TryAt, StayDue, NodeFloor, NodeDone, Seen, Stays, Leaves, OutTried};

use instance::{Euro, File, Kilo};
use tables::TABLES;

// What is given for a week in which no units may be out: more than all prices together.
pub const NO_WEEK: u64 = 8589934592;
// The nodes that are looked into at most in a week.
const FUEL: u32 = 1000;

// At place k of a row of 17, over the units below k: their prices, the prices of those that may be out, the highest of these, and their capacities.
// Behind them the units that may never be out.
const SUMS: usize = 69;

const OPEN: usize = 17;

const TOP: usize = 34;

const CAPS: usize = 51;

const NEVER: usize = 68;

// What the units decided so far leave: what the others have to give, the crews, who may not be out, who is out, and the prices of those who stay.
#[derive(Clone, Copy)]
struct FreeNode {
    week: usize,
    need: Kilo,
    crews: u64,
    bar: u32,
    out: u32,
    score: Euro,
}

// The least so far, a set of units out that comes to it, and the nodes that may still be looked into.
#[derive(Clone, Copy)]
pub struct FreeWeek {
    pub value: Euro,
    pub out: u32,
    pub fuel: u32,
}

// What is known once a node has been looked at: it is done with, or its highest unit is still to be decided.
#[derive(Clone, Copy)]
enum Looked {
    Done(FreeWeek),
    Open(FreeWeek),
}

// ---- the sums

// What all units give in week t.
pub fn all_given(file: &File, t: usize) -> Kilo
    ensures { (result.0 ≡ sum_to (problem file.now).units ((problem file.now).capacity t)) × (result.0 ≤ 16000000) }
{
    let units = file.layout.units;
    let mut sum = Kilo(0);
    for i in 0..units {
        sum += file.capacity(t, i);
    }
    sum
}

// The units that may never be out, with unit i where the others give less than is wanted.
fn never_with(file: &File, t: usize, all: Kilo, never: u32, i: usize) -> u32
    requires { NeverDue file.now t all.0 i never }
    ensures { NeverTo (problem file.now) t (i + 1) (has result) }
{
    let wanted = file.demand(t);
    let given = file.capacity(t, i);
    if all.0 < (wanted + given).0 {
        return sets::with(never, i);
    }
    never
}

// The units that may never be out of week t: without one of them the capacities fall short of the demand.
fn never_out(file: &File, t: usize) -> u32
    requires { (t < file.now.layout.weeks) }
    ensures { NeverTo (problem file.now) t (problem file.now).units (has result) }
{
    let units = file.layout.units;
    let all = all_given(file, t);
    let mut never: u32 = 0;
    for i in 0..units {
        never = never_with(file, t, all, never, i);
    }
    never
}

// The price of unit i, 0 where it may never be out.
fn open_price(never: u64, i: usize, price: Euro) -> u64
    requires { (never < 4294967296) × (i < 32) }
    ensures { OpenPrice never i price.0 result }
{
    if sets::has(never as u32, i) {
        return 0;
    }
    price.0
}

// The sums over the units up to one.
#[derive(Clone, Copy)]
struct SumsWith {
    prices: u64,
    saved: u64,
    top: u64,
    caps: u64,
}

// The sums over the units below i, with unit i.
fn sums_with(
    file: &File,
    tables: &[u32; TABLES],
    t: usize,
    i: usize,
    sums: &[u64; SUMS],
) -> SumsWith
    requires { SumsDue file.now tables.now t sums.now i × (i < file.now.layout.units) }
    ensures { UnitAdded (problem file.now) tables.now t sums.now i result }
{
    let price = tables::price(tables, t, i);
    let given = file.capacity(t, i);
    let open = open_price(sums[NEVER], i, price);
    let prices = sums[i];
    let opens = sums[OPEN + i];
    let caps = sums[CAPS + i];
    SumsWith {
        prices: prices + price.0,
        saved: opens + open,
        top: sums[TOP + i].max(open),
        caps: caps + given.0,
    }
}

// Puts unit i into sums over the units below it.
fn put_unit(file: &File, tables: &[u32; TABLES], t: usize, i: usize, sums: &mut [u64; SUMS])
    requires { SumsDue file.now tables.now t sums.old i × (i < file.now.layout.units) }
    ensures { SumsDue file.now tables.now t sums.new (i + 1) }
{
    let with = sums_with(file, tables, t, i, sums);
    let next = i + 1;
    sums[next] = with.prices;
    sums[OPEN + next] = with.saved;
    sums[TOP + next] = with.top;
    sums[CAPS + next] = with.caps;
}

// The sums of week t.
fn sums_of(file: &File, tables: &[u32; TABLES], t: usize) -> [u64; SUMS]
    requires { FreeAt file.now tables.now t }
    ensures { SumsDue file.now tables.now t result file.now.layout.units }
{
    let units = file.layout.units;
    let mut sums: [u64; SUMS] = [0; SUMS];
    sums[NEVER] = never_out(file, t) as u64;
    for i in 0..units {
        put_unit(file, tables, t, i, &mut sums);
    }
    sums
}

// ---- a node

// The node before any unit is decided.
fn root_node(file: &File, t: usize, sums: &[u64; SUMS]) -> FreeNode
    requires { (t < file.now.layout.weeks) × (entry sums.now NEVER < 4294967296) }
    ensures { AtRoot (problem file.now) t sums.now result }
{
    FreeNode {
        week: t,
        need: file.demand(t),
        crews: file.crews() as u64,
        bar: sums[NEVER] as u32,
        out: 0,
        score: Euro(0),
    }
}

// The sum at place k of a row.
fn sum_at(sums: &[u64; SUMS], row: usize, k: usize) -> u64
    requires { (row ≤ CAPS) × (k < 17) }
    ensures { result ≡ entry sums.now (row + k) }
{
    sums[row + k]
}

// The prices of the units below k.
fn prices_below(sums: &[u64; SUMS], k: usize) -> u64
    requires { k < 17 }
    ensures { result ≡ entry sums.now k }
{
    sums[k]
}

// What units below k that are out save at most: the prices of all that may be, or as many of the highest as there are crews.
fn savable(sums: &[u64; SUMS], k: usize, crews: u64) -> u64
    requires { (k < 17) × (crews ≤ 16) × (entry sums.now (TOP + k) ≤ MOST_PRICE) }
    ensures { Savable sums.now k crews result }
{
    let most = crews * sum_at(sums, TOP, k);
    sum_at(sums, OPEN, k).min(most)
}

// What a node comes to at least.
fn bound(file: &File, tables: &[u32; TABLES], sums: &[u64; SUMS], k: usize, y: FreeNode) -> Euro
    requires { NodeDue file.now tables.now sums.now k y }
    ensures { NodeFloor (problem file.now) tables.now k y result.0 × (result.0 ≤ MOST_WEEK_PRICES) }
{
    let all = prices_below(sums, k);
    let saved = savable(sums, k, y.crews);
    (y.score + Euro(all)).saturating_sub(Euro(saved))
}

// A node before its highest unit is decided. It is done with where the capacities left fall short, where it cannot come below the least, where no
// unit or no crew is left, and where the fuel is spent: then it counts as what it comes to at least.
fn look(
    file: &File,
    tables: &[u32; TABLES],
    sums: &[u64; SUMS],
    k: usize,
    y: FreeNode,
    low: FreeWeek,
) -> Looked
    requires { NodeDue file.now tables.now sums.now k y }
    ensures { Seen (problem file.now) tables.now k y low result }
{
    let caps = sum_at(sums, CAPS, k);
    if caps < y.need.0 {
        return Looked::Done(low);
    }
    let value = bound(file, tables, sums, k, y);
    if low.value.0 <= value.0 {
        return Looked::Done(low);
    }
    if k == 0 || y.crews == 0 {
        return Looked::Done(FreeWeek {
            value,
            out: y.out,
            ..low
        });
    }
    if low.fuel == 0 {
        return Looked::Done(FreeWeek { value, ..low });
    }
    Looked::Open(FreeWeek {
        fuel: low.fuel - 1,
        ..low
    })
}

// The node with unit i staying.
fn stay(file: &File, tables: &[u32; TABLES], i: usize, y: FreeNode) -> FreeNode
    requires { StayDue file.now tables.now i y }
    ensures { Stays (problem file.now) tables.now i y result }
{
    let given = file.capacity(y.week, i);
    let price = tables::price(tables, y.week, i);
    FreeNode {
        need: y.need.saturating_sub(given),
        score: y.score + price,
        ..y
    }
}

// The node with unit i out.
fn leave(file: &File, tables: &[u32; TABLES], i: usize, y: FreeNode) -> FreeNode
    requires { FreeAt file.now tables.now y.week × (i < file.now.layout.units) × (0 < y.crews) }
    ensures { Leaves (problem file.now) i y result }
{
    let bar = sets::union(y.bar, tables::partners(tables, i));
    FreeNode {
        crews: y.crews - 1,
        bar,
        out: sets::with(y.out, i),
        ..y
    }
}

// ---- all nodes

// The least so far, or less, after all choices in which unit i is out, as the highest that is still to be decided.
#[cycle(try_out_walk)]
fn try_out(
    file: &File,
    tables: &[u32; TABLES],
    sums: &[u64; SUMS],
    i: usize,
    y: FreeNode,
    low: FreeWeek,
) -> FreeWeek
    requires { TryAt file.now tables.now sums.now i y }
    ensures { OutTried (problem file.now) tables.now i y low result }
{
    if sets::has(y.bar, i) {
        return low;
    }
    let price = tables::price(tables, y.week, i);
    if price.0 == 0 {
        return low;
    }
    let z = leave(file, tables, i, y);
    walk(file, tables, sums, i, z, low)
}

// The least so far, or less, after all choices for the units below k.
#[cycle(try_out_walk)]
fn walk(
    file: &File,
    tables: &[u32; TABLES],
    sums: &[u64; SUMS],
    k: usize,
    y: FreeNode,
    low: FreeWeek,
) -> FreeWeek
    requires { NodeAt file.now tables.now sums.now k y }
    ensures { NodeDone (problem file.now) tables.now k y low result }
{
    match look(file, tables, sums, k, y, low) {
        Looked::Done(found) => found,
        Looked::Open(found) => {
            let i = k - 1;
            let less = try_out(file, tables, sums, i, y, found);
            let z = stay(file, tables, i, y);
            walk(file, tables, sums, i, z, less)
        }
    }
}

// What the prices of the units not out of week t come to at least, whoever may be out; the set is advice.
pub fn free_week(file: &File, tables: &[u32; TABLES], t: usize) -> FreeWeek
    requires { FreeAt file.now tables.now t }
    ensures { WeekFree (problem file.now) (price_in tables.now) t result.value.0 × (result.value.0 ≤ NO_WEEK) }
{
    let sums = sums_of(file, tables, t);
    let root = root_node(file, t, &sums);
    let low = FreeWeek {
        value: Euro(NO_WEEK),
        out: 0,
        fuel: FUEL,
    };
    walk(file, tables, &sums, file.layout.units, root, low)
}
