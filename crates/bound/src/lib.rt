// Tests of a start, and the lower bound of what is placed. For each week a row word holds the tally of the units out, and another table what the week
// is worth at the prices; a start is tested on the weeks of its overhaul alone. Every test that fails names units whose starts are a dead end.
// Weeks and units count from 0, starts from 1.
// `tallies` has the row words, `weeks` the tests of an overhaul's weeks, and here are rows, bounds, and the cost and runs of a plan: start at `test`.
#![tactic(auto)]

ghost use Rattle.std.specs.Prelude.{◌≡◌, ◌+◌, ◌/◌, ◌%◌, ◌<◌, ◌≤◌, replicate};
ghost use Rattle.sums.specs.Sum.{sum_to};
ghost use Rattle.sums.specs.NumSet.{has};
ghost use Rattle.sums.specs.Table.{entry};
ghost use Rattle.sets.specs.Sets.{SETS};
ghost use Rattle.model.specs.Schedule.{out_in};
ghost use Rattle.model.specs.Commitment.{out_cost, least_cost, cheapest_run};
ghost use Rattle.instance.specs.File.{problem};
ghost use Rattle.commitment.specs.Tally.{Tallies};
ghost use Rattle.memo.specs.Memo.{Right, Others};
ghost use Rattle.blame.specs.Placed.{paid, run_of};
ghost use Rattle.tables.specs.Tables.{price_in, least_in};
ghost use Rattle.relaxation.specs.Relaxed.{MemoTrue};
ghost use Rattle.bound.specs.Rows.{COUNTS, MOST_WEEK, tally_of, RowsDue, RowsWith, RowsOfAll};
ghost use Rattle.bound.specs.Tests.{Judged, RootValues, Rooted};
ghost use Rattle.bound.specs.Tests.{StartBounded, with_start, Weighing, TestDue, RootDue};
ghost use Rattle.bound.specs.Tests.{MOST_LEAST, some_startless, Permits, RunsOf};

use dual::Node;
use instance::{Euro, File};
use model::NO_RUN;
use tables::TABLES;
use tallies::ROW_SETS;

mod tallies;
mod weeks;

// ---- rows

// The rows with unit j out in the weeks of its overhaul (D55).
pub fn placed_rows(file: &File, rows: &[u64; 52], starts: [u8; 16], j: usize) -> [u64; 52]
    requires { RowsDue (problem file.now) rows.now (entry starts) j }
    ensures { RowsWith (problem file.now) rows.now (entry starts) j result }
{
    let first = starts[j] as usize - 1;
    let weeks = file.duration(j);
    let mut next = *rows;
    for k in 0..weeks {
        next[first + k] = tallies::word_with(file, first + k, j, rows[first + k]);
    }
    next
}

// The rows before any unit is placed.
pub fn no_rows() -> [u64; 52]
    ensures { result ≡ replicate 52 0 }
{
    [0; 52]
}

// The units out in a row word.
pub fn row_units(word: u64) -> u32
    ensures { result ≡ word % SETS }
{
    tallies::tally(word).out
}

// How many they are.
pub fn row_count(word: u64) -> usize
    ensures { result ≡ word / SETS % COUNTS }
{
    tallies::tally(word).count
}

// ---- a start

// A node whose bound has the start of its unit in it.
fn with_start(tables: &[u32; TABLES], node: Node) -> Node
    requires { StartBounded node }
    ensures { result ≡ with_start tables.now node }
{
    let start = node.starts[node.unit] as usize;
    dual::with_bound(node, node.bound + tables::excess(tables, node.unit, start))
}

// The bound with the weeks, weighed against the limit: one that comes to it blames those whose starts keep it there.
fn weigh(
    file: &File,
    tables: &[u32; TABLES],
    node: Node,
    total: Euro,
    limit: Euro,
    values: &mut [u32],
) -> Result<Euro, u32>
    requires { Weighing file.now tables.now node total limit.0 values.old }
    ensures { Judged (problem file.now) tables.now node limit.0 values.new result }
{
    let wanted = dual::wanted(tables, limit);
    if total.0 < wanted.0 {
        return Ok(total);
    }
    let placed = dual::next_node(node, total);
    Err(dual::find_blame(file, tables, placed, limit, values))
}

// The node's unit at its start, with the units placed as the rows have them: the rules in the weeks of its overhaul, and the lower bound; or the units
// whose starts are a dead end. The values of the weeks are those without the unit before, and those with it after where it holds (D56).
pub fn test(
    file: &File,
    tables: &[u32; TABLES],
    rows: &[u64; 52],
    node: Node,
    limit: Euro,
    values: &mut [u32],
    memo: &mut [u32],
) -> Result<Euro, u32>
    requires { TestDue file.now tables.now rows.now node limit.0 values.old memo.old }
    ensures answer { Judged (problem file.now) tables.now node limit.0 values.new result }
    ensures recalls { MemoTrue (problem file.now) (price_in tables.now) memo.new }
{
    let wanted = dual::wanted(tables, limit);
    let started = with_start(tables, node);
    let total = weeks::test_weeks(file, tables, rows, started, wanted, values, memo)?;
    weigh(file, tables, node, total, limit, values)
}

// ---- before any unit is placed

// What all overhauls cost at least.
fn least_sum(file: &File, tables: &[u32; TABLES]) -> Euro
    ensures { (result.0 ≡ sum_to (problem file.now).units (least_in tables.now)) × (result.0 ≤ MOST_LEAST) }
{
    let units = file.layout.units;
    let mut sum = Euro(0);
    for i in 0..units {
        sum += tables::excess(tables, i, 0);
    }
    sum
}

// The lower bound with nobody out; or no schedule is below the limit at all (D61).
pub fn root(file: &File, tables: &[u32; TABLES], limit: Euro) -> Result<Euro, u32>
    requires { RootDue file.now tables.now limit.0 }
    ensures { Rooted (problem file.now) tables.now limit.0 result }
{
    let weeks = file.layout.weeks;
    let wanted = dual::wanted(tables, limit);
    let mut sum = least_sum(file, tables);
    for t in 0..weeks {
        let value = tables::root_value(tables, t);
        if NO_RUN <= value.0 {
            return Err(0);
        }
        sum += value;
    }
    if wanted.0 <= sum.0 {
        return Err(0);
    }
    Ok(sum)
}

// What each week is worth with nobody out.
pub fn first_values(tables: &[u32; TABLES]) -> [u32; 52]
    ensures { RootValues tables.now result }
{
    let mut table: [u32; 52] = [0; 52];
    for t in 0..52 {
        table[t] = tables::root_value(tables, t).0 as u32;
    }
    table
}

// Whether some unit has no permitted start (D61).
pub fn has_no_start(file: &File) -> bool
    ensures { result ≡ some_startless (problem file.now) }
{
    let units = file.layout.units;
    for i in 0..units {
        let starts = overhaul::starts_of(file, i);
        if starts.last < starts.first {
            return true;
        }
    }
    false
}

// ---- all units placed

// What week t costs with the units of a row word out: their maintenance, and the cheapest run of the others.
fn tally_cost(file: &File, t: usize, word: u64, memo: &mut [u32]) -> Euro
    requires { (t < file.now.layout.weeks) × Tallies (problem file.now) t (tally_of word) × Right (problem file.now) memo.old }
    ensures answer { (result.0 ≡ out_cost (problem file.now) t (has (word % SETS)) + least_cost (problem file.now) t (has (word % SETS)))
        × (result.0 ≤ MOST_WEEK) }
    ensures right { Right (problem file.now) memo.new × Others memo.old memo.new }
{
    let y = tallies::tally(word);
    let run = memo::least_cost(file, t, y.out, memo);
    y.cost + run
}

// What all weeks cost with the units of the rows out.
pub fn cost(file: &File, rows: &[u64; 52], starts: [u8; 16], memo: &mut [u32]) -> Euro
    requires { RowsOfAll (problem file.now) (entry starts) rows.now × Right (problem file.now) memo.old }
    ensures answer { result.0 ≡ paid (problem file.now) (out_in (problem file.now) (entry starts)) }
    ensures right { Right (problem file.now) memo.new × Others memo.old memo.new }
{
    let weeks = file.layout.weeks;
    let mut sum = Euro(0);
    for t in 0..weeks {
        sum += tally_cost(file, t, rows[t], memo);
    }
    sum
}

// ---- the runs of a schedule

// The cheapest run of week t with the units of a row word out, 0 where there is none.
fn run_of(file: &File, t: usize, word: u64) -> u32
    requires { (t < file.now.layout.weeks) }
    ensures { result ≡ run_of (cheapest_run (problem file.now) t (has (word % SETS))) }
{
    match commitment::cheapest(file, t, (word % ROW_SETS) as u32) {
        None => 0,
        Some(run) => run.number,
    }
}

// The rows with all units placed at these starts.
fn all_rows(file: &File, starts: [u8; 16]) -> [u64; 52]
    requires { Permits (problem file.now) (entry starts) }
    ensures { RowsOfAll (problem file.now) (entry starts) result }
{
    let units = file.layout.units;
    let mut rows = no_rows();
    for j in 0..units {
        // By way of a variable: the check covers no call whose result is laid in an array that it is lent.
        let next = placed_rows(file, &rows, starts, j);
        rows = next;
    }
    rows
}

// The cheapest run of each week, with the units out that these starts say.
pub fn runs(file: &File, starts: [u8; 16]) -> [u32; 52]
    requires { Permits (problem file.now) (entry starts) }
    ensures { RunsOf (problem file.now) (entry starts) result }
{
    let weeks = file.layout.weeks;
    let rows = all_rows(file, starts);
    let mut table: [u32; 52] = [0; 52];
    for t in 0..weeks {
        table[t] = run_of(file, t, rows[t]);
    }
    table
}
