// Formulas (2) and (3): no unit is in maintenance in a week that is too early or too late for it.
ghost use Rattle.std.specs.Prelude.{◌≡◌, ◌<◌};
ghost use Rattle.model.specs.Rules as formulas;
ghost use Rattle.instance.specs.File.{problem};
ghost use Rattle.rules.specs.Gridded.{states};

use crate::Grid;

// (2) for unit i in week t.
fn not_early(grid: &Grid, t: usize, i: usize) -> bool
    requires { (t < grid.now.file.layout.weeks) × (i < grid.now.file.layout.units) }
    ensures { result ≡ formulas.ok2 (problem grid.now.file) (states grid.now) t i }
{
    if grid.state(t, i) != 2 {
        return true;
    }
    grid.file.earliest(i) <= t + 1
}

// (2) no unit is in maintenance before its earliest start.
pub fn keeps2(grid: &Grid) -> bool
    ensures { result ≡ formulas.keeps2 (problem grid.now.file) (states grid.now) }
{
    let weeks = grid.file.layout.weeks;
    let units = grid.file.layout.units;
    let mut ok = true;
    'early: for t in 0..weeks {
        for i in 0..units {
            if !not_early(grid, t, i) {
                ok = false;
                break 'early;
            }
        }
    }
    ok
}

// (3) for unit i in week t.
fn not_late(grid: &Grid, t: usize, i: usize) -> bool
    requires { (t < grid.now.file.layout.weeks) × (i < grid.now.file.layout.units) }
    ensures { result ≡ formulas.ok3 (problem grid.now.file) (states grid.now) t i }
{
    if grid.state(t, i) != 2 {
        return true;
    }
    let latest = grid.file.latest(i);
    let duration = grid.file.duration(i);
    t + 1 < latest + duration
}

// (3) no unit is in maintenance after the overhaul that begins at its latest start.
pub fn keeps3(grid: &Grid) -> bool
    ensures { result ≡ formulas.keeps3 (problem grid.now.file) (states grid.now) }
{
    let weeks = grid.file.layout.weeks;
    let units = grid.file.layout.units;
    let mut ok = true;
    'late: for t in 0..weeks {
        for i in 0..units {
            if !not_late(grid, t, i) {
                ok = false;
                break 'late;
            }
        }
    }
    ok
}
