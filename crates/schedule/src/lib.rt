// A schedule laid out as a grid: MAINT from each unit's start for its duration, ON for the units of a week's run, OFF elsewhere. A schedule is
// two lists of words, a start for each unit, from 1, and a run for each week; a number past the end of a list is 0. Weeks and units count from 0.
#![tactic(auto)]

ghost use Rattle.std.specs.Prelude.{◌≡◌, ◌*◌, ◌<◌, ◌≤◌, length, get_or};
ghost use Rattle.model.specs.Words.{problem_of};
ghost use Rattle.model.specs.Grid.{state_at};
ghost use Rattle.model.specs.Schedule.{schedule_of, in_span, lay_out};
ghost use Rattle.model.specs.Verdict.{accepted};
ghost use Rattle.model.specs.Drawing.{draw_verdict, drawn_into};
ghost use Rattle.instance.specs.File.{problem};
ghost use Rattle.decoder.specs.Answers.{verdict_of};

use decoder::{Fault, Refusal};
use instance::File;

// The number at place k of a list, 0 past its end.
fn number_at(list: &[u32], k: usize) -> u32
    ensures { result ≡ get_or list.now k 0 }
{
    list.get(k).copied().unwrap_or(0)
}

// Whether week t lies in the overhaul of unit i.
#[tactic(auto, using(sums::proofs::Tests::tests), unfolding(model::specs::Schedule::in_span))]
fn overhauled(file: &File, starts: &[u32], t: usize, i: usize) -> bool
    requires { (t < file.now.layout.weeks) × (i < file.now.layout.units) }
    ensures { result ≡ in_span (get_or starts.now i 0) ((problem file.now).duration i) t }
{
    let start = number_at(starts, i) as usize;
    let duration = file.duration(i);
    start <= t + 1 && t + 1 < start + duration
}

// The state of unit i in week t.
fn state(file: &File, starts: &[u32], runs: &[u32], t: usize, i: usize) -> u8
    requires { (t < file.now.layout.weeks) × (i < file.now.layout.units) }
    ensures { result ≡ lay_out (problem file.now) (schedule_of starts.now runs.now) t i }
{
    if overhauled(file, starts, t, i) {
        2
    } else if sets::has(number_at(runs, t), i) {
        1
    } else {
        0
    }
}

// The state that byte q of the grid tells.
fn drawn_state(file: &File, starts: &[u32], runs: &[u32], q: usize) -> u8
    requires { q < file.now.layout.weeks * file.now.layout.units }
    ensures { result ≡ state_at (problem file.now)
        (lay_out (problem file.now) (schedule_of starts.now runs.now)) q }
{
    state(
        file,
        starts,
        runs,
        q / file.layout.units,
        q % file.layout.units,
    )
}

// Writes the grid; the bytes beyond are kept.
fn write(file: &File, starts: &[u32], runs: &[u32], grid: &mut [u8])
    requires { file.now.layout.weeks * file.now.layout.units ≤ length grid.old }
    ensures { grid.new ≡
        drawn_into accepted (problem file.now) (schedule_of starts.now runs.now) grid.old }
{
    for q in 0..file.layout.weeks * file.layout.units {
        grid[q] = drawn_state(file, starts, runs, q);
    }
}

// Lays a schedule out as a grid in the lent bytes and keeps any beyond, or refuses and changes nothing: the file's refusal, then 17 where
// the bytes are fewer than weeks times units (D43).
pub fn draw(words: &[u32], starts: &[u32], runs: &[u32], grid: &mut [u8]) -> Result<(), Refusal>
    ensures answer { verdict_of result ≡ draw_verdict words.now (length grid.old) }
    ensures buffer { grid.new ≡
        drawn_into (verdict_of result) (problem_of words.now) (schedule_of starts.now runs.now) grid.old }
{
    decoder::read(words)?;
    let file = File::new(words);
    if grid.len() < file.layout.weeks * file.layout.units {
        return Err(Fault::TooFewWords.at(0));
    }
    write(&file, starts, runs, grid);
    Ok(())
}
