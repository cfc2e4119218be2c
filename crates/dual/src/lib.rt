// What a search knows at prices for units that are not out, before it places any: what overhauls cost from each start, and what weeks are worth with
// nobody out; and which of the units placed are to blame where the lower bound comes to the limit. Weeks and units count from 0, starts from 1.
#![tactic(auto)]

ghost use Rattle.std.specs.Prelude.{◌≡◌, true, ◌+◌, ◌-◌, ◌*◌, ◌<◌, ◌≤◌, length};
ghost use Rattle.sums.specs.Sum.{sum_to, added, transposed, shifted};
ghost use Rattle.sums.specs.NumSet.{has};
ghost use Rattle.sums.specs.Table.{entry};
ghost use Rattle.model.specs.Domain.{permitted};
ghost use Rattle.model.specs.Nogood.{MOST_LIMIT};
ghost use Rattle.instance.specs.File.{problem};
ghost use Rattle.blame.specs.Priced.{priced};
ghost use Rattle.tables.specs.Tables.{TABLES, AMOUNTS, price_in, total_in, Priced};
ghost use Rattle.relaxation.specs.Relaxed.{MemoTrue};
ghost use Rattle.dual.specs.Dual.{MOST_OVERHAUL, MOST_SPAN, span_sum, Dual, LeastFrom};
ghost use Rattle.dual.specs.Made.{UnitAt, StartAt, CostsMade, CostsTo, RootsMade};
ghost use Rattle.dual.specs.Blame.{MOST_WANTED, IsNext, with_bound, Bounded, Blamed, OverhaulAt, gain_in, loss_of, BackTo, PutBack, Dropping, MayDrop, Dropped, Shrunk};

use instance::{Euro, File};
use tables::{ROOT_VALUES, START_COSTS, TABLES, TOTAL};

// What the overhaul of a unit costs at most: 52 weeks at 250,000 and the highest price, and 52 at 250,000.
pub const MOST_OVERHAUL: u64 = 268435456;

// A place of a walk: the units of the set `placed` have these starts, no schedule with them costs less than the bound, all prices and OFF costs
// included, and `unit` is to be placed next.
#[derive(Clone, Copy)]
pub struct Node {
    pub starts: [u8; 16],
    pub unit: usize,
    pub bound: Euro,
    pub placed: u32,
}

// The same starts with the node's unit placed, at this bound; the unit after it is next.
pub fn next_node(node: Node, bound: Euro) -> Node
    requires { node.unit < 16 }
    ensures { IsNext node bound result }
{
    Node {
        unit: node.unit + 1,
        bound,
        placed: sets::with(node.placed, node.unit),
        ..node
    }
}

// The same node at another bound.
pub fn with_bound(node: Node, bound: Euro) -> Node
    ensures { result ≡ with_bound node bound }
{
    Node { bound, ..node }
}

// ---- what overhauls cost

// What unit i would cost OFF in the weeks of its overhaul from a permitted start.
fn span_off(file: &File, i: usize, start: usize) -> Euro
    requires { StartAt file.now i start }
    ensures { result.0 ≡ span_sum (problem file.now) i start (transposed (problem file.now).off i) }
{
    let duration = file.duration(i);
    let first = start - 1;
    let mut sum = Euro(0);
    for k in 0..duration {
        sum += file.off_cost(first + k, i);
    }
    sum
}

// What these weeks cost, their prices included.
fn span_cost(file: &File, tables: &[u32; TABLES], i: usize, start: usize) -> Euro
    requires { StartAt file.now i start × Priced (problem file.now) tables.now }
    ensures { (result.0 ≡ span_sum (problem file.now) i start
        (added (transposed (problem file.now).maint i) (transposed (price_in tables.now) i))) × (result.0 ≤ MOST_SPAN) }
{
    let duration = file.duration(i);
    let first = start - 1;
    let mut sum = Euro(0);
    for k in 0..duration {
        let cost = file.maint_cost(first + k, i);
        let price = tables::price(tables, first + k, i);
        sum += cost + price;
    }
    sum
}

// What the overhaul of unit i costs from a permitted start, its prices included, with OFF in all other weeks. What all weeks cost OFF stands in the
// table, so no start asks for the weeks outside its overhaul.
fn priced_cost(file: &File, tables: &[u32; TABLES], i: usize, start: usize) -> Euro
    requires { StartAt file.now i start × Priced (problem file.now) tables.now }
    ensures { (result.0 ≡ priced (problem file.now) (price_in tables.now) i start) × (result.0 ≤ MOST_OVERHAUL) }
{
    let off = tables::off_cost(tables, i);
    let all = span_cost(file, tables, i, start) + off;
    let inside = span_off(file, i, start);
    all.saturating_sub(inside)
}

// At most what it costs from any permitted start.
fn least_priced(file: &File, tables: &[u32; TABLES], i: usize) -> Euro
    requires { UnitAt file.now tables.now i }
    ensures { LeastFrom (problem file.now) (price_in tables.now) i result.0 × (result.0 ≤ MOST_OVERHAUL) }
{
    let starts = overhaul::starts_of(file, i);
    let mut least = Euro(MOST_OVERHAUL);
    for s in starts.first..starts.last + 1 {
        let cost = priced_cost(file, tables, i, s);
        least = Euro(least.0.min(cost.0));
    }
    least
}

// What unit i costs from a permitted start above its least.
fn cost_above(file: &File, tables: &[u32; TABLES], i: usize, start: usize, least: Euro) -> u32
    requires { StartAt file.now i start × Priced (problem file.now) tables.now
        × LeastFrom (problem file.now) (price_in tables.now) i least.0 }
    ensures { least.0 + result ≡ priced (problem file.now) (price_in tables.now) i start }
{
    let cost = priced_cost(file, tables, i, start);
    (cost.0 - least.0) as u32
}

// Puts what unit i costs from a permitted start above its least into a table that has its starts before.
fn put_start(
    file: &File,
    tables: &[u32; TABLES],
    i: usize,
    start: usize,
    least: Euro,
    next: &mut [u32; TABLES],
)
    requires { CostsTo file.now tables.now i least.0 start next.old × (permitted (problem file.now) i start ≡ true) × (start ≤ 52) }
    ensures { CostsTo file.now tables.now i least.0 (start + 1) next.new }
{
    next[START_COSTS + i * 64 + start] = cost_above(file, tables, i, start, least);
}

// Puts what unit i costs into a table that has the units below it.
fn put_costs(file: &File, tables: &[u32; TABLES], i: usize, next: &mut [u32; TABLES])
    requires { CostsMade file.now tables.now i next.old × (i < file.now.layout.units) }
    ensures { CostsMade file.now tables.now (i + 1) next.new }
{
    let starts = overhaul::starts_of(file, i);
    let least = least_priced(file, tables, i);
    next[START_COSTS + i * 64] = least.0 as u32;
    for s in starts.first..starts.last + 1 {
        put_start(file, tables, i, s, least, next);
    }
}

// Puts what all units' overhauls cost.
fn put_all_costs(file: &File, tables: &[u32; TABLES], next: &mut [u32; TABLES])
    requires { Priced (problem file.now) tables.now × (next.old ≡ tables.now) }
    ensures { CostsMade file.now tables.now file.now.layout.units next.new }
{
    let units = file.layout.units;
    for i in 0..units {
        put_costs(file, tables, i, next);
    }
}

// ---- what weeks are worth with nobody out

// Puts what week t is worth with nobody out into a table that has the weeks before it.
fn put_root(
    file: &File,
    tables: &[u32; TABLES],
    t: usize,
    next: &mut [u32; TABLES],
    memo: &mut [u32],
)
    requires { RootsMade file.now tables.now t next.old × (t < file.now.layout.weeks) × MemoTrue (problem file.now) (price_in tables.now) memo.old }
    ensures answer { RootsMade file.now tables.now (t + 1) next.new }
    ensures recalls { MemoTrue (problem file.now) (price_in tables.now) memo.new }
{
    let value = relaxation::week_value(file, tables, t, 0, memo);
    next[ROOT_VALUES + t] = value.0 as u32;
}

// Puts what each week is worth with nobody out into a table that has all units' costs.
fn put_roots(file: &File, tables: &[u32; TABLES], next: &mut [u32; TABLES], memo: &mut [u32])
    requires { CostsMade file.now tables.now file.now.layout.units next.old × MemoTrue (problem file.now) (price_in tables.now) memo.old }
    ensures answer { RootsMade file.now tables.now file.now.layout.weeks next.new }
    ensures recalls { MemoTrue (problem file.now) (price_in tables.now) memo.new }
{
    let weeks = file.layout.weeks;
    for t in 0..weeks {
        put_root(file, tables, t, next, memo);
    }
}

// The table with all its parts, from one that has prices, partners and OFF costs.
pub fn fill_tables(file: &File, tables: &[u32; TABLES], memo: &mut [u32]) -> [u32; TABLES]
    requires { Priced (problem file.now) tables.now × MemoTrue (problem file.now) (price_in tables.now) memo.old }
    ensures answer { Dual (problem file.now) result }
    ensures recalls { MemoTrue (problem file.now) (price_in result) memo.new }
{
    let mut next = *tables;
    put_all_costs(file, tables, &mut next);
    put_roots(file, tables, &mut next, memo);
    next[TOTAL] = tables::sum_total(file.layout, tables).0 as u32;
    next
}

// ---- who is to blame

// Units whose starts keep the bound up, and the bound.
#[derive(Clone, Copy)]
struct BlameLeft {
    units: u32,
    sum: Euro,
}

// What week t is worth above its value with nobody out.
fn gain(tables: &[u32; TABLES], values: &[u32], t: usize) -> Euro
    requires { (t < 52) × (length values.now ≡ 52) }
    ensures { (result.0 ≡ gain_in tables.now values.now t) × (result.0 < AMOUNTS) }
{
    let value = tables::amount(values[t]);
    value.saturating_sub(tables::root_value(tables, t))
}

// What these weeks are worth together above their value with nobody out.
fn gains(tables: &[u32; TABLES], values: &[u32], first: usize, duration: usize) -> Euro
    requires { (first + duration ≤ 52) × (length values.now ≡ 52) }
    ensures { (result.0 ≡ sum_to duration (shifted first (gain_in tables.now values.now))) × (result.0 ≤ 52 * AMOUNTS) }
{
    let mut sum = Euro(0);
    for k in 0..duration {
        sum += gain(tables, values, first + k);
    }
    sum
}

// What the bound loses without unit i: what it costs above its least, and what its weeks are worth above their value with nobody out.
fn loss(file: &File, tables: &[u32; TABLES], starts: [u8; 16], i: usize, values: &[u32]) -> Euro
    requires { OverhaulAt file.now starts i values.now }
    ensures { (result.0 ≡ loss_of (problem file.now) tables.now (entry starts) values.now i)
        × (result.0 ≤ 53 * AMOUNTS) }
{
    let start = starts[i] as usize;
    let duration = file.duration(i);
    let own = tables::excess(tables, i, start);
    own + gains(tables, values, start - 1, duration)
}

// Puts these weeks back to their value with nobody out.
fn put_weeks_back(tables: &[u32; TABLES], first: usize, duration: usize, values: &mut [u32])
    requires { (first + duration ≤ 52) × (length values.old ≡ 52) }
    ensures { BackTo tables.now first duration values.old values.new }
{
    for k in 0..duration {
        values[first + k] = tables::root_value(tables, first + k).0 as u32;
    }
}

// Puts the weeks of unit i's overhaul back to their value with nobody out.
fn put_back(file: &File, tables: &[u32; TABLES], starts: [u8; 16], i: usize, values: &mut [u32])
    requires { OverhaulAt file.now starts i values.old }
    ensures { PutBack (problem file.now) tables.now (entry starts) i values.old values.new }
{
    let start = starts[i] as usize;
    let duration = file.duration(i);
    put_weeks_back(tables, start - 1, duration, values);
}

// Drops unit i, one of those kept, where the bound still comes to what is wanted.
fn drop_unit(
    file: &File,
    tables: &[u32; TABLES],
    starts: [u8; 16],
    i: usize,
    wanted: Euro,
    kept: BlameLeft,
    values: &mut [u32],
) -> BlameLeft
    requires { Dropping file.now tables.now starts i wanted.0 kept values.old }
    ensures { Dropped (problem file.now) tables.now (entry starts) wanted.0 kept result values.new }
{
    let less = loss(file, tables, starts, i, values);
    if kept.sum.0 < wanted.0 + less.0 {
        return kept;
    }
    put_back(file, tables, starts, i, values);
    BlameLeft {
        units: sets::without(kept.units, i),
        sum: Euro(kept.sum.0 - less.0),
    }
}

// The same of any unit: one that is not kept cannot be dropped.
fn try_drop(
    file: &File,
    tables: &[u32; TABLES],
    starts: [u8; 16],
    i: usize,
    wanted: Euro,
    kept: BlameLeft,
    values: &mut [u32],
) -> BlameLeft
    requires { MayDrop file.now tables.now starts i wanted.0 kept values.old }
    ensures { Dropped (problem file.now) tables.now (entry starts) wanted.0 kept result values.new }
{
    if sets::has(kept.units, i) {
        return drop_unit(file, tables, starts, i, wanted, kept, values);
    }
    kept
}

// Drops units of those placed, the last first, where the bound still comes to what is wanted.
fn shrink_blame(
    file: &File,
    tables: &[u32; TABLES],
    node: Node,
    wanted: Euro,
    values: &mut [u32],
) -> BlameLeft
    requires { Bounded file.now tables.now node values.old × (wanted.0 ≤ node.bound.0) × (wanted.0 ≤ MOST_WANTED) }
    ensures { Shrunk (problem file.now) tables.now (has node.placed) (entry node.starts) wanted.0 result }
{
    let starts = node.starts;
    let mut kept = BlameLeft {
        units: node.placed,
        sum: node.bound,
    };
    for i in (0..file.layout.units).rev() {
        kept = try_drop(file, tables, starts, i, wanted, kept, values);
    }
    kept
}

// What a bound has to come to: the limit, all OFF costs and all prices.
pub fn wanted(tables: &[u32; TABLES], limit: Euro) -> Euro
    requires { limit.0 ≤ MOST_LIMIT }
    ensures { (result.0 ≡ limit.0 + total_in tables.now) × (result.0 ≤ MOST_WANTED) }
{
    limit + tables::total(tables)
}

// A bound less all OFF costs and all prices, 0 where they are more, and no more than the limit.
pub fn cost_below(tables: &[u32; TABLES], sum: Euro, limit: Euro) -> Euro
    ensures { result.0 ≤ limit.0 }
{
    let cost = sum.saturating_sub(tables::total(tables));
    Euro(cost.0.min(limit.0))
}

// The units that are to blame, of those placed: where the bound of their starts comes to the limit, only those whose starts keep it there. What the
// values of the weeks are afterwards is left open (D57).
pub fn find_blame(
    file: &File,
    tables: &[u32; TABLES],
    node: Node,
    limit: Euro,
    values: &mut [u32],
) -> u32
    requires { Bounded file.now tables.now node values.old × (limit.0 ≤ MOST_LIMIT) }
    ensures { Blamed (problem file.now) tables.now node limit.0 result }
{
    let most = wanted(tables, limit);
    let sum = node.bound;
    if sum.0 < most.0 {
        return node.placed;
    }
    let kept = shrink_blame(file, tables, node, most, values);
    kept.units
}
