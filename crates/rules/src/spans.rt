// Formulas (4) to (6) and (8): the weeks from the first to the last in which a unit is in maintenance.
ghost use Rattle.std.specs.Prelude.{◌≡◌, ◌*◌, ◌<◌, ◌≤◌};
ghost use Rattle.model.specs.Rules as formulas;
ghost use Rattle.instance.specs.File.{problem};
ghost use Rattle.rules.specs.Spans.{FirstOut, EndOut};
ghost use Rattle.rules.specs.Gridded.{states};

use crate::Grid;

// The first week in which unit i is in maintenance, the number of weeks where there is none (D42).
fn first_out(grid: &Grid, i: usize) -> usize
    requires { i < grid.now.file.layout.units }
    ensures { FirstOut grid.now.file.layout.weeks (states grid.now) i result }
{
    let weeks = grid.file.layout.weeks;
    for t in 0..weeks {
        if grid.state(t, i) == 2 {
            return t;
        }
    }
    weeks
}

// The week after the last in which unit i is in maintenance, 0 where there is none.
fn end_out(grid: &Grid, i: usize) -> usize
    requires { i < grid.now.file.layout.units }
    ensures { EndOut grid.now.file.layout.weeks (states grid.now) i result }
{
    for t in (0..grid.file.layout.weeks).rev() {
        if grid.state(t, i) == 2 {
            return t + 1;
        }
    }
    0
}

// ---- formulas (4) to (6)

// (4) from its first week of maintenance to its last a unit is in maintenance (D13).
pub fn keeps4(grid: &Grid) -> bool
    ensures { result ≡ formulas.keeps4 (problem grid.now.file) (states grid.now) }
{
    let units = grid.file.layout.units;
    let mut ok = true;
    'whole: for i in 0..units {
        let first = first_out(grid, i);
        let end = end_out(grid, i);
        for t in first..end {
            if grid.state(t, i) != 2 {
                ok = false;
                break 'whole;
            }
        }
    }
    ok
}

// (5) for unit i.
fn long_enough(grid: &Grid, i: usize) -> bool
    requires { i < grid.now.file.layout.units }
    ensures { result ≡ formulas.unit5 (problem grid.now.file) (states grid.now) i }
{
    let end = end_out(grid, i);
    if end == 0 {
        return true;
    }
    let first = first_out(grid, i);
    let duration = grid.file.duration(i);
    end == first + duration
}

// (5) from its first week of maintenance to its last a unit's overhaul is as long as the duration.
pub fn keeps5(grid: &Grid) -> bool
    ensures { result ≡ formulas.keeps5 (problem grid.now.file) (states grid.now) }
{
    let units = grid.file.layout.units;
    let mut ok = true;
    'long: for i in 0..units {
        if !long_enough(grid, i) {
            ok = false;
            break 'long;
        }
    }
    ok
}

// (6) for unit i.
fn overhauled(grid: &Grid, i: usize) -> bool
    requires { i < grid.now.file.layout.units }
    ensures { result ≡ formulas.unit6 (problem grid.now.file) (states grid.now) i }
{
    end_out(grid, i) != 0
}

// (6) every unit is in maintenance in some week (D13).
pub fn keeps6(grid: &Grid) -> bool
    ensures { result ≡ formulas.keeps6 (problem grid.now.file) (states grid.now) }
{
    let units = grid.file.layout.units;
    let mut ok = true;
    'overhauls: for i in 0..units {
        if !overhauled(grid, i) {
            ok = false;
            break 'overhauls;
        }
    }
    ok
}

// ---- formula (8)

// (8) for pair n in week t.
fn pair_apart(grid: &Grid, t: usize, n: usize) -> bool
    requires { (t < grid.now.file.layout.weeks) × (n < (problem grid.now.file).pairs) }
    ensures { result ≡ formulas.ok8 (problem grid.now.file) (states grid.now) t n }
{
    let a = grid.file.pair_a(n);
    if grid.state(t, a) != 2 {
        return true;
    }
    let b = grid.file.pair_b(n);
    grid.state(t, b) != 2
}

// The weeks between which a unit is in maintenance.
#[derive(Clone, Copy)]
struct Span {
    unit: usize,
    first: usize,
    end: usize,
}

// The span of unit i.
fn span_of(grid: &Grid, i: usize) -> Span
    requires { i < grid.now.file.layout.units }
    ensures unit { result.unit ≡ i }
    ensures first { FirstOut grid.now.file.layout.weeks (states grid.now) result.unit result.first }
    ensures end { EndOut grid.now.file.layout.weeks (states grid.now) result.unit result.end }
{
    let first = first_out(grid, i);
    let end = end_out(grid, i);
    Span {
        unit: i,
        first,
        end,
    }
}

// The span of unit i, where another span is at hand that may be the one (D42).
fn span_for(grid: &Grid, i: usize, known: Span) -> Span
    requires i_lt_units { i < grid.now.file.layout.units }
    requires first_out { FirstOut grid.now.file.layout.weeks (states grid.now) known.unit known.first }
    requires end_out { EndOut grid.now.file.layout.weeks (states grid.now) known.unit known.end }
    ensures unit { result.unit ≡ i }
    ensures first { FirstOut grid.now.file.layout.weeks (states grid.now) result.unit result.first }
    ensures end { EndOut grid.now.file.layout.weeks (states grid.now) result.unit result.end }
{
    if known.unit == i {
        return known;
    }
    span_of(grid, i)
}

// (8) in no week are both units of a pair in maintenance. Only weeks of the lower unit's overhaul are tried, which most often is that of the
// pair before.
pub fn keeps8(grid: &Grid) -> bool
    ensures { result ≡ formulas.keeps8 (problem grid.now.file) (states grid.now) }
{
    let pairs = grid.file.pairs();
    let mut span = span_of(grid, 0);
    let mut ok = true;
    'apart: for n in 0..pairs {
        let a = grid.file.pair_a(n);
        span = span_for(grid, a, span);
        let from = span.first;
        let to = span.end;
        for t in from..to {
            if !pair_apart(grid, t, n) {
                ok = false;
                break 'apart;
            }
        }
    }
    ok
}
