// The judge of a grid: sound at its cost, or the smallest number among the formulas broken, or turned away by a refusal.
#![tactic(auto)]

ghost use Rattle.std.specs.Prelude.{◌<◌, ◌≤◌, ◌≡◌, length};
ghost use Rattle.model.specs.Words.{VALUES};
ghost use Rattle.model.specs.Rules.{charge, week_cost, cost9};
ghost use Rattle.model.specs.Verdict.{first_fault};
ghost use Rattle.model.specs.Refusal.{cell_fault, grid_verdict};
ghost use Rattle.model.specs.Judgement.{judgement, judge_of, judge_bytes, judge_input};
ghost use Rattle.model.specs.Lines.{judgement_text, Written};
ghost use Rattle.instance.specs.File.{problem};
ghost use Rattle.instance.specs.Tables.{maints_of, runnings_of, table_for, row_of};
ghost use Rattle.decoder.specs.Answers.{verdict_of};
ghost use Rattle.checker.specs.Answers.{judged_of, judgement_of};
ghost use Rattle.rules.specs.Gridded.{states};
ghost use Rattle.checker.specs.Stated.{Stated};

use decoder::{Fault, Refusal};
use instance::{Euro, File};
use rules::Grid;

// A grid is sound at a cost, or breaks a formula.
#[derive(Clone, Copy, Debug, PartialEq, Eq)]
pub enum Judgement {
    Sound(u64),
    Breaks(u32),
}

// ---- formula (9)

// Week t's row of the table of costs that a state names, MAINT or ON.
fn row_for<'a>(file: &File<'a>, t: usize, state: u8) -> &'a [u32]
    requires { t < file.now.layout.weeks }
    ensures { result.now ≡ row_of file.now.layout.units t (table_for state (maints_of file.now.layout file.now.words.now)
        (runnings_of file.now.layout file.now.words.now)) }
{
    instance::cost_row(
        file.maint_table(),
        file.running_table(),
        file.layout.units,
        t,
        state,
    )
}

// What unit i costs in week t: OFF its own figure, since a file may have no table of OFF costs, any other state what its row says.
fn cell_cost(grid: &Grid, t: usize, i: usize) -> Euro
    requires { Stated grid.now × (t < grid.now.file.layout.weeks) × (i < grid.now.file.layout.units) }
    ensures { (result.0 ≡ charge (problem grid.now.file) (states grid.now) t i) × (result.0 < VALUES) }
{
    let state = grid.state(t, i);
    if state == 0 {
        return grid.file.off_cost(t, i);
    }
    let row = row_for(&grid.file, t, state);
    Euro(words::value_of(row[i]) as u64)
}

// What all units cost in week t.
fn week_cost(grid: &Grid, t: usize) -> Euro
    requires { Stated grid.now × (t < grid.now.file.layout.weeks) }
    ensures { (result.0 ≡ week_cost (problem grid.now.file) (states grid.now) t) × (result.0 ≤ 4294967296) }
{
    let mut sum = Euro(0);
    for i in 0..grid.file.layout.units {
        sum += cell_cost(grid, t, i);
    }
    sum
}

// What the grid costs, formula (9).
fn grid_cost(grid: &Grid) -> Euro
    requires { Stated grid.now }
    ensures { result.0 ≡ cost9 (problem grid.now.file) (states grid.now) }
{
    let mut sum = Euro(0);
    for t in 0..grid.file.layout.weeks {
        sum += week_cost(grid, t);
    }
    sum
}

// ---- the grid's own refusals

// The first byte above 2.
fn cells_verdict(grid: &[u8]) -> Result<(), Refusal>
    ensures { verdict_of result ≡ first_fault (cell_fault grid.now) 0 (length grid.now) }
{
    // A loop, and not `position`: what that says of its test takes more to use than the loop.
    for q in 0..grid.len() {
        if 2 < grid[q] {
            return Err(Fault::BadCell.at(q));
        }
    }
    Ok(())
}

// A byte for each week and unit, then the bytes one by one.
fn grid_verdict(file: &File, grid: &[u8]) -> Result<(), Refusal>
    ensures { verdict_of result ≡ grid_verdict (problem file.now) grid.now }
{
    if grid.len() != file.layout.weeks * file.layout.units {
        return Err(Fault::GridSize.at(0));
    }
    cells_verdict(grid)
}

// ---- the judge

// The judgement on a grid of the three states: the smallest broken number, or the cost.
fn judge_cells(grid: &Grid) -> Judgement
    requires { Stated grid.now }
    ensures { judged_of result ≡ judgement (problem grid.now.file) (states grid.now) }
{
    let rule = rules::broken(grid);
    if rule != 0 {
        return Judgement::Breaks(rule);
    }
    Judgement::Sound(grid_cost(grid).0)
}

// The judgement on any words as a plan file and any bytes as a grid.
pub fn judge(words: &[u32], grid: &[u8]) -> Result<Judgement, Refusal>
    ensures { judgement_of result ≡ judge_of words.now grid.now }
{
    decoder::read(words)?;
    let file = File::new(words);
    grid_verdict(&file, grid)?;
    Ok(judge_cells(&Grid { file, cells: grid }))
}

// ---- the judge's program

// The judgement on a file's bytes and a grid. The words have room for the longest input, so `TooFewWords` never comes from here.
fn judge_bytes(file: &[u8], grid: &[u8]) -> Result<Judgement, Refusal>
    requires { length file.now ≤ 32768 }
    ensures { judgement_of result ≡ judge_bytes file.now grid.now }
{
    let mut words = [0u32; 8192];
    let n = decoder::load(file, &mut words)?;
    judge(input::front(&words, n), grid)
}

// The judgement on a program's input: a file's bytes up to and with its end word, then a grid's (D44).
pub fn judge_input(bytes: &[u8]) -> Result<Judgement, Refusal>
    ensures { judgement_of result ≡ judge_input bytes.now }
{
    if 32768 < bytes.len() {
        return Err(Fault::TooFewWords.at(0));
    }
    let end = input::file_end(bytes);
    judge_bytes(&bytes[..end], &bytes[end..])
}

// The line that is printed for a program's input: how many of the lent bytes it has; any beyond are kept. 50 bytes hold the longest (D45).
pub fn judge_text(bytes: &[u8], text: &mut [u8]) -> usize
    requires { 50 ≤ length text.old }
    ensures { Written (judgement_text (judge_input bytes.now)) text.old text.new result }
{
    match judge_input(bytes) {
        Ok(Judgement::Sound(cost)) => report::put_sound(text, cost),
        Ok(Judgement::Breaks(formula)) => report::put_rule(text, formula),
        Err(refusal) => report::put_refusal(text, refusal.fault.number(), refusal.place),
    }
}
