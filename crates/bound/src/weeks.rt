// A unit's start tested on the weeks of its overhaul, one after the other, as far as the bound stays below what is wanted.
ghost use Rattle.std.specs.Prelude.{◌≡◌, ◌+◌, ◌-◌, ◌<◌, ◌≤◌, length, get_or, set};
ghost use Rattle.sums.specs.NumSet.{has};
ghost use Rattle.sums.specs.Table.{entry};
ghost use Rattle.model.specs.Commitment.{NO_RUN};
ghost use Rattle.instance.specs.File.{problem};
ghost use Rattle.commitment.specs.Tally.{Tallies};
ghost use Rattle.tables.specs.Tables.{price_in};
ghost use Rattle.relaxation.specs.Relaxed.{WeekAt, MemoTrue};
ghost use Rattle.bound.specs.Tests.{WeekDue, OutTested, WeekTested, WeeksTested, Tested};
ghost use Rattle.bound.specs.Tests.{StartPermitted, OverhaulWeeks, StartDue, WeeksDue};
ghost use Rattle.bound.specs.Tests.{MOST_BOUND};

use crate::tallies;
use commitment::Tally;
use dual::Node;
use instance::{Euro, File};
use model::NO_RUN;
use tables::TABLES;

// The weeks of an overhaul, from the first to before the end.
#[derive(Clone, Copy)]
struct Weeks {
    first: usize,
    end: usize,
}

// Those of the unit that is to be placed.
fn overhaul_weeks(file: &File, node: Node) -> Weeks
    requires { StartPermitted (problem file.now) node }
    ensures { OverhaulWeeks (problem file.now) node result.first result.end }
{
    let starts = node.starts;
    let j = node.unit;
    let first = starts[j] as usize - 1;
    let weeks = file.duration(j);
    Weeks {
        first,
        end: first + weeks,
    }
}

// ---- one week

// Week t with the units of a tally out: the crews (7), a run that meets the demand (1); and what the week is worth then.
fn test_out(
    file: &File,
    tables: &[u32; TABLES],
    t: usize,
    y: Tally,
    memo: &mut [u32],
) -> Result<Euro, u32>
    requires { WeekAt file.now tables.now t × Tallies (problem file.now) t y × MemoTrue (problem file.now) (price_in tables.now) memo.old }
    ensures answer { OutTested (problem file.now) (price_in tables.now) t y.out result }
    ensures recalls { MemoTrue (problem file.now) (price_in tables.now) memo.new }
{
    if file.crews() < y.count {
        return Err(y.out);
    }
    let value = relaxation::week_value(file, tables, t, y.out, memo);
    if NO_RUN <= value.0 {
        return Err(y.out);
    }
    Ok(value)
}

// Week t with unit j out as well: the excluded pairs (8), then the tests of all who are out.
fn test_week(
    file: &File,
    tables: &[u32; TABLES],
    j: usize,
    t: usize,
    word: u64,
    memo: &mut [u32],
) -> Result<Euro, u32>
    requires { WeekAt file.now tables.now t × (j < file.now.layout.units) × WeekDue (problem file.now) t word
        × MemoTrue (problem file.now) (price_in tables.now) memo.old }
    ensures answer { WeekTested (problem file.now) (price_in tables.now) j t word result }
    ensures recalls { MemoTrue (problem file.now) (price_in tables.now) memo.new }
{
    let y = tallies::tally(word);
    let both = sets::intersection(y.out, tables::partners(tables, j));
    if both != 0 {
        return Err(sets::with(both, j));
    }
    test_out(file, tables, t, y.with_unit(file, t, j), memo)
}

// A bound in which one week's value gives way to another.
fn exchanged(sum: Euro, before: u32, after: Euro) -> Euro
    requires { (sum.0 ≤ MOST_BOUND) × (after.0 ≤ NO_RUN) }
    ensures { result.0 ≡ sum.0 + after.0 - before }
{
    (sum + after).saturating_sub(tables::amount(before))
}

// Writes what week t is worth now, and gives the bound with it.
fn put_value(sum: Euro, t: usize, value: Euro, values: &mut [u32]) -> Euro
    requires { (sum.0 ≤ MOST_BOUND) × (value.0 ≤ NO_RUN) × (t < 52) × (length values.old ≡ 52) }
    ensures sum { result.0 ≡ sum.0 + value.0 - get_or values.old t 0 }
    ensures values { values.new ≡ set values.old t value.0 }
{
    let total = exchanged(sum, values[t], value);
    values[t] = value.0 as u32;
    total
}

// Week t of unit j's overhaul, at the bound of the weeks before it; where it holds its value is written, and the bound with it given.
fn test_next(
    file: &File,
    tables: &[u32; TABLES],
    rows: &[u64; 52],
    node: Node,
    t: usize,
    values: &mut [u32],
    memo: &mut [u32],
) -> Result<Euro, u32>
    requires { WeeksDue file.now tables.now rows.now node t values.old memo.old }
    ensures answer { WeeksTested (problem file.now) tables.now (has node.placed) (entry node.starts) node.unit t values.new result }
    ensures recalls { MemoTrue (problem file.now) (price_in tables.now) memo.new }
{
    let value = test_week(file, tables, node.unit, t, rows[t], memo)?;
    Ok(put_value(node.bound, t, value, values))
}

// ---- all weeks of an overhaul

// Unit j at its start, on the weeks of its overhaul, as far as the bound stays below what is wanted. The node's bound has the unit's start in it.
pub fn test_weeks(
    file: &File,
    tables: &[u32; TABLES],
    rows: &[u64; 52],
    node: Node,
    wanted: Euro,
    values: &mut [u32],
    memo: &mut [u32],
) -> Result<Euro, u32>
    requires { StartDue file.now tables.now rows.now node values.old memo.old }
    ensures answer { Tested (problem file.now) tables.now (has node.placed) (entry node.starts) node.unit
        wanted.0 values.new result }
    ensures recalls { MemoTrue (problem file.now) (price_in tables.now) memo.new }
{
    let weeks = overhaul_weeks(file, node);
    let mut total = node.bound;
    // Each time round, the weeks before t hold with the unit out, and `total` is a bound with what they are worth then.
    for t in weeks.first..weeks.end {
        if wanted.0 <= total.0 {
            return Ok(total);
        }
        let next = dual::with_bound(node, total);
        total = test_next(file, tables, rows, next, t, values, memo)?;
    }
    Ok(total)
}
