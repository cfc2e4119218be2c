// Prices for units that are not out, found from the file alone, in rounds: at the prices of a round each unit has a least start and each week a best
// set of units out, and prices rise where units are out by their least starts alone, and fall where the weeks alone have them out. Any prices serve a
// bound, these are advice. In the field this is the subgradient method with momentum. Weeks and units count from 0, starts from 1.
// `wants` is what units and weeks want at prices, `effort` what may be spent on a week, `momentum` has the pushes, `step` moves prices, and here are the
// rounds: start at `find_prices`.
#![tactic(auto)]

ghost use Rattle.std.specs.Prelude.{◌<◌, IfSome};
ghost use Rattle.sums.specs.Table.{AtMost};
ghost use Rattle.instance.specs.File.{problem};
ghost use Rattle.memo.specs.Memo.{Right, Others};
ghost use Rattle.tables.specs.Tables.{First, Priced};
ghost use Rattle.prices.specs.Ranges.{MOST_BOUND, MOST_PUSH, PricedFile, ProgressInRange, OneOf};

use effort::Work;
use instance::File;
pub use momentum::{LEVEL, PLACES, magnitude, push_at, update_momentum};
use step::Progress;
use tables::TABLES;
pub use wants::Wants;

mod effort;
mod momentum;
mod step;
mod wants;

// The most rounds, for each unit of the file.
const ROUNDS: usize = 16;
// So many rounds in a row without a gain make steps shorter by half.
const PATIENCE: u32 = 6;
// The first reach of steps, in 256ths.
const REACH: u64 = 256;
// Rounds end where steps reach less than this.
const LEAST_REACH: u64 = 8;

// Runs a round: pushes, a step, and the bound at the new prices; no bound where units and weeks agree.
fn run_round(
    file: &File,
    s: Progress,
    tables: &mut [u32; TABLES],
    push: &mut [u32; PLACES],
    wants: &mut Wants,
    work: &mut Work,
    memo: &mut [u32],
) -> Option<u64>
    requires { PricedFile file.now tables.old × AtMost MOST_PUSH push.old × ProgressInRange s × Right (problem file.now) memo.old }
    ensures bound { IfSome result (λ root. root < MOST_BOUND) }
    ensures ranges { PricedFile file.now tables.new × AtMost MOST_PUSH push.new }
    ensures right { Right (problem file.now) memo.new × Others memo.old memo.new }
{
    momentum::update_momentum(file, wants, push);
    let norm = momentum::squared_norm(file.layout, push);
    if norm == 0 {
        return None;
    }
    let step = step::step_of(s, norm);
    step::move_prices(file.layout, step, push, tables);
    let root = wants::solve_relaxation(file, tables, wants, work, memo)?;
    Some(root.0)
}

// After a round keeps a gain; too many rounds without one go back to the best prices, and steps are shorter.
fn keep_or_restart(
    root: u64,
    s: Progress,
    tables: &mut [u32; TABLES],
    push: &mut [u32; PLACES],
    wants: &mut Wants,
    best: &mut [u32; TABLES],
    kept: &mut Wants,
) -> Progress
    requires { (root < MOST_BOUND) × ProgressInRange s × AtMost MOST_PUSH push.old }
    ensures ranges { ProgressInRange result × AtMost MOST_PUSH push.new }
    ensures chosen { OneOf tables.old best.old tables.new
        × OneOf tables.old best.old best.new }
{
    if s.best < root {
        *best = *tables;
        *kept = *wants;
        return Progress {
            best: root,
            at: root,
            idle: 0,
            ..s
        };
    }
    let idle = s.idle + 1;
    if idle < PATIENCE {
        return Progress {
            at: root,
            idle,
            ..s
        };
    }
    *tables = *best;
    *wants = *kept;
    *push = [LEVEL; PLACES];
    Progress {
        at: s.best,
        reach: s.reach / 2,
        idle: 0,
        ..s
    }
}

// The prices of the best of the rounds, from a table at whose prices the bound and what units and weeks want are these; what the rounds needed is noted.
fn ascend(
    file: &File,
    first: &[u32; TABLES],
    root: u64,
    wants: &mut Wants,
    work: &mut Work,
    memo: &mut [u32],
) -> [u32; TABLES]
    requires { PricedFile file.now first.now × (root < MOST_BOUND) × Right (problem file.now) memo.old }
    ensures answer { Priced (problem file.now) result }
    ensures right { Right (problem file.now) memo.new × Others memo.old memo.new }
{
    let most = file.layout.units * ROUNDS;
    let mut best = *first;
    let mut kept = *wants;
    let mut tables = *first;
    let mut push: [u32; PLACES] = [LEVEL; PLACES];
    let mut s = Progress {
        best: root,
        at: root,
        reach: REACH,
        idle: 0,
    };
    // Each time round, `s` has the bound at the prices of `best`, the highest so far, and that at the prices of `tables`, at which `wants` is wanted.
    for _ in 0..most {
        let Some(root) = run_round(file, s, &mut tables, &mut push, wants, work, memo) else {
            break;
        };
        s = keep_or_restart(root, s, &mut tables, &mut push, wants, &mut best, &mut kept);
        if s.reach < LEAST_REACH {
            break;
        }
    }
    best
}

// The first table of a file with prices put in; as it is, with prices of 0, where a unit has no permitted start, or a week no run with nobody out.
// Least costs that the rounds ask for are kept in the memo (D79).
pub fn find_prices(file: &File, first: &[u32; TABLES], memo: &mut [u32]) -> [u32; TABLES]
    requires { First (problem file.now) (problem file.now).units first.now
        × Right (problem file.now) memo.old }
    ensures answer { Priced (problem file.now) result }
    ensures right { Right (problem file.now) memo.new × Others memo.old memo.new }
{
    let mut wants = Wants::NONE;
    let mut work = Work {
        hard: [false; 52],
        nodes: 0,
    };
    let Some(root) = wants::solve_relaxation(file, first, &mut wants, &mut work, memo) else {
        return *first;
    };
    let best = ascend(file, first, root.0, &mut wants, &mut work, memo);
    effort::with_hard_weeks(best, &work)
}
