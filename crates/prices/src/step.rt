// Steps: how far prices move in a round, by the bounds reached and the pushes.
ghost use Rattle.std.specs.Prelude.{◌<◌, ◌≤◌};
ghost use Rattle.sums.specs.Table.{AtMost};
ghost use Rattle.tables.specs.Tables.{MOST_PRICE, Prices};
ghost use Rattle.prices.specs.Ranges.{LEVEL, MOST_PUSH, MOST_AIM, MOST_STEP, MOST_CHANGE, Moved, ProgressInRange};

use crate::momentum;
use crate::momentum::{LEVEL, PLACES};
use instance::Euro;
use model::Layout;
use tables::{MOST_PRICE, TABLES};

// A step aims above the best bound so far by this fraction of it.
const AIM: u64 = 200;
// A step is in 256ths, and a push of one round is 256.
const STEP_SCALE: u64 = 65536;

// How far the rounds have come: the best bound so far and that of the prices at hand, the reach of steps, and the rounds since the last gain.
// Bounds are plain numbers from here on: no sum is made of them, but lengths of steps.
#[derive(Clone, Copy)]
pub struct Progress {
    pub best: u64,
    pub at: u64,
    pub reach: u64,
    pub idle: u32,
}

// How far above the bound at hand a step aims: as far as the best bound so far, and a fraction more.
fn aim_of(s: Progress) -> u64
    requires { ProgressInRange s }
    ensures { result ≤ MOST_AIM }
{
    s.best / AIM + s.best - s.at
}

// The length of the next step, for pushes of this squared norm.
pub fn step_of(s: Progress, norm: u64) -> u64
    requires { ProgressInRange s × (0 < norm) }
    ensures { result ≤ MOST_STEP }
{
    aim_of(s) * s.reach / norm
}

// How far a step changes a price.
fn change(step: u64, magnitude: u64) -> u64
    requires { (step ≤ MOST_STEP) × (magnitude ≤ LEVEL) }
    ensures { result ≤ MOST_CHANGE }
{
    step * magnitude / STEP_SCALE
}

// A price a step on.
fn moved(price: Euro, push: u32, step: u64) -> u32
    requires { (price.0 ≤ MOST_PRICE) × (push ≤ MOST_PUSH) × (step ≤ MOST_STEP) }
    ensures { result ≤ MOST_PRICE }
{
    let old = price.0;
    let by = change(step, momentum::magnitude(push));
    if push < LEVEL {
        return old.saturating_sub(by) as u32;
    }
    (old + by).min(MOST_PRICE) as u32
}

// Moves the prices of week t.
fn move_week(l: Layout, t: usize, step: u64, push: &[u32; PLACES], tables: &mut [u32; TABLES])
    requires { (l.units ≤ 16) × (t < 52) × (step ≤ MOST_STEP) × AtMost MOST_PUSH push.now × Prices tables.old }
    ensures { Moved tables.old tables.new }
{
    for i in 0..l.units {
        let place = t * 16 + i;
        let price = tables::price(tables, t, i);
        tables[place] = moved(price, momentum::push_at(push, place), step);
    }
}

// Moves all prices.
pub fn move_prices(l: Layout, step: u64, push: &[u32; PLACES], tables: &mut [u32; TABLES])
    requires { (l.weeks ≤ 52) × (l.units ≤ 16) × (step ≤ MOST_STEP) × AtMost MOST_PUSH push.now × Prices tables.old }
    ensures { Moved tables.old tables.new }
{
    for t in 0..l.weeks {
        move_week(l, t, step, push, tables);
    }
}
