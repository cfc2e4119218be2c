// Formulas (1) and (7): what the units of a week come to, against what is due or there.
ghost use Rattle.std.specs.Prelude.{◌≡◌, ◌*◌, ◌<◌, ◌≤◌};
ghost use Rattle.sums.specs.Sum.{counts_one};
ghost use Rattle.sums.specs.NumSet.{only_in};
ghost use Rattle.model.specs.Grid.{is_on, is_maint};
ghost use Rattle.model.specs.Rules as formulas;
ghost use Rattle.instance.specs.File.{problem};
ghost use Rattle.rules.specs.Gridded.{states};

use crate::Grid;
use instance::Kilo;

// ---- formula (1)

// What unit i adds to the output of week t.
fn output_part(grid: &Grid, t: usize, i: usize) -> Kilo
    requires { (t < grid.now.file.layout.weeks) × (i < grid.now.file.layout.units) }
    ensures { (result.0 ≡ only_in (is_on (states grid.now) t) ((problem grid.now.file).capacity t) i)
        × (result.0 ≤ 1000000) }
{
    if grid.state(t, i) == 1 {
        return grid.file.capacity(t, i);
    }
    Kilo(0)
}

// What the units ON give in week t.
fn week_output(grid: &Grid, t: usize) -> Kilo
    requires { t < grid.now.file.layout.weeks }
    ensures { result.0 ≡ formulas.output (problem grid.now.file) t (is_on (states grid.now) t) }
{
    let units = grid.file.layout.units;
    let mut sum = Kilo(0);
    for i in 0..units {
        sum += output_part(grid, t, i);
    }
    sum
}

// (1) in week t.
fn demand_met(grid: &Grid, t: usize) -> bool
    requires { t < grid.now.file.layout.weeks }
    ensures { result ≡ formulas.ok1 (problem grid.now.file) (states grid.now) t }
{
    let due = grid.file.demand(t);
    let made = week_output(grid, t);
    due.0 <= made.0
}

// (1) the units ON meet the demand, in every week.
pub fn keeps1(grid: &Grid) -> bool
    ensures { result ≡ formulas.keeps1 (problem grid.now.file) (states grid.now) }
{
    let weeks = grid.file.layout.weeks;
    let mut ok = true;
    'demand: for t in 0..weeks {
        if !demand_met(grid, t) {
            ok = false;
            break 'demand;
        }
    }
    ok
}

// ---- formula (7)

// 1 where unit i is in maintenance in week t, else 0.
fn out_part(grid: &Grid, t: usize, i: usize) -> usize
    requires { (t < grid.now.file.layout.weeks) × (i < grid.now.file.layout.units) }
    ensures { (result ≡ only_in (is_maint (states grid.now) t) counts_one i) × (result ≤ 1) }
{
    if grid.state(t, i) == 2 {
        return 1;
    }
    0
}

// How many units are in maintenance in week t.
fn week_out(grid: &Grid, t: usize) -> usize
    requires { t < grid.now.file.layout.weeks }
    ensures { result ≡ formulas.headcount (problem grid.now.file) (is_maint (states grid.now) t) }
{
    let units = grid.file.layout.units;
    let mut sum = 0;
    for i in 0..units {
        sum += out_part(grid, t, i);
    }
    sum
}

// (7) in week t.
fn crews_enough(grid: &Grid, t: usize) -> bool
    requires { t < grid.now.file.layout.weeks }
    ensures { result ≡ formulas.ok7 (problem grid.now.file) (states grid.now) t }
{
    let out = week_out(grid, t);
    let crews = grid.file.crews();
    out <= crews
}

// (7) in no week are more units in maintenance than there are crews.
pub fn keeps7(grid: &Grid) -> bool
    ensures { result ≡ formulas.keeps7 (problem grid.now.file) (states grid.now) }
{
    let weeks = grid.file.layout.weeks;
    let mut ok = true;
    'crews: for t in 0..weeks {
        if !crews_enough(grid, t) {
            ok = false;
            break 'crews;
        }
    }
    ok
}
