// Formulas (1) to (8) tested on a grid of an accepted file, each by loops over weeks, units or pairs that are left at a breach. Weeks, units and
// pairs count from 0. A cell's state stays a number: a grid may hold any bytes, and the formulas are asked of all.
// `grid` has the grid, `weekly` the formulas that add up the units of a week, `cells` those that look at one unit in one week, `spans` those that
// look at the weeks from the first to the last in which a unit is in maintenance, and here all are asked in turn: start at `broken`.
#![tactic(auto)]

ghost use Rattle.std.specs.Prelude.{◌≡◌, ◌*◌, ◌<◌, ◌≤◌};
ghost use Rattle.model.specs.Rules as formulas;
ghost use Rattle.instance.specs.File.{problem};
ghost use Rattle.rules.specs.Gridded.{states};

pub use grid::{Grid, state};

mod cells;
mod grid;
mod spans;
mod weekly;

// The smallest number among the formulas broken, 0 for none.
pub fn broken(grid: &Grid) -> u32
    ensures { result ≡ formulas.broken (problem grid.now.file) (states grid.now) }
{
    if !weekly::keeps1(grid) {
        return 1;
    }
    if !cells::keeps2(grid) {
        return 2;
    }
    if !cells::keeps3(grid) {
        return 3;
    }
    if !spans::keeps4(grid) {
        return 4;
    }
    if !spans::keeps5(grid) {
        return 5;
    }
    if !spans::keeps6(grid) {
        return 6;
    }
    if !weekly::keeps7(grid) {
        return 7;
    }
    if !spans::keeps8(grid) {
        return 8;
    }
    0
}
