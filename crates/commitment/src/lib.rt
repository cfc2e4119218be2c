// One week: the tally of the units out, and the cheapest run of the others. A run's score is its cost, with all other units OFF, times SCALE, and
// its number, so that the least score has the least cost and, of equal costs, the smallest number; a unit's weight is what it adds to a score. Units
// that cost less running than OFF are thrifty: they run whether they are needed or not. Weeks and units count from 0.
#![tactic(auto)]

ghost use Rattle.std.specs.Prelude.{◌≡◌, ◌||◌, ℕ, ◌+◌, ◌-◌, ◌*◌, ◌<◌, ◌≤◌};
ghost use Rattle.sums.specs.NumSet.{has, with};
ghost use Rattle.model.specs.Rules.{output};
ghost use Rattle.model.specs.Commitment.{line_cost, full_cost, full_least, NO_RUN};
ghost use Rattle.instance.specs.File.{problem};
ghost use Rattle.cover.specs.Cover.{UNCOVERED};
ghost use Rattle.cover.specs.Tables.{MOST_WEIGHT, Caps, Weights};
ghost use Rattle.commitment.specs.Tally.{no_tally, Tallies};
ghost use Rattle.commitment.specs.Score.{SCALE, scored, cost_in, number_in, weight_of, thrifty_at, ThriftyRun, LeastWeight, LeastScore, Column};
ghost use Rattle.commitment.specs.Answers.{Answers};

use cover::UNCOVERED;
use instance::{Euro, File, Kilo};

// The units out in a week, their number, and their maintenance cost.
#[derive(Clone, Copy)]
pub struct Tally {
    pub out: u32,
    pub count: usize,
    pub cost: Euro,
}

impl Tally {
    // Nobody is out.
    pub fn none() -> Tally
        ensures { result ≡ no_tally }
    {
        Tally {
            out: 0,
            count: 0,
            cost: Euro(0),
        }
    }

    // Week t's tally with unit i out as well.
    pub fn with_unit(self, file: &File, t: usize, i: usize) -> Tally
        requires t_lt_weeks { (t < file.now.layout.weeks) × (i < file.now.layout.units) }
        requires tallies { Tallies (problem file.now) t self }
        ensures { Tallies (problem file.now) t result × ((k : ℕ) → has result.out k ≡ with (has self.out) i k) }
    {
        if sets::has(self.out, i) {
            return self;
        }
        let more = file.maint_cost(t, i);
        Tally {
            out: sets::with(self.out, i),
            count: self.count + 1,
            cost: self.cost + more,
        }
    }
}

// A week's cheapest run: its number, and its cost.
#[derive(Clone, Copy)]
pub struct BestRun {
    pub number: u32,
    pub cost: Euro,
}

// What each unit gives in week t, 0 past the last.
fn capacities(file: &File, t: usize) -> [u64; 16]
    ensures { Column file.now.layout.units ((problem file.now).capacity t) result × Caps result }
{
    let units = file.layout.units;
    let mut caps: [u64; 16] = [0; 16];
    for i in 0..units {
        let kilo = file.capacity(t, i);
        caps[i] = kilo.0;
    }
    caps
}

// The number of the next unit's own run: twice that of this unit's.
fn next_number(number: u64) -> u64
    requires { number ≤ 32768 }
    ensures { result ≡ number * 2 }
{
    number * 2
}

// ---- scores

// What a euro counts in a score: more than any run's number.
const SCALE: u64 = 65536;

// The score of a run: what it costs with all other units OFF, and its number (D46).
fn score(cost: Euro, number: u64) -> u64
    requires { (cost.0 ≤ 4000000) × (number < SCALE) }
    ensures { (result ≡ scored cost.0 number) × (result < UNCOVERED) }
{
    cost.0 * SCALE + number
}

// The cost that a score tells.
fn cost_in(score: u64) -> Euro
    ensures { result.0 ≡ cost_in score }
{
    Euro(score / SCALE)
}

// The number of the run that it tells.
fn number_in(score: u64) -> u32
    ensures { result ≡ number_in score }
{
    (score % SCALE) as u32
}

// What a unit adds to the score of a run where it need not run: its running cost above its OFF cost, and the number of its own run.
fn weight(on: Euro, off: Euro, number: u64) -> u64
    requires { (on.0 ≤ 250000) × (number ≤ 32768) }
    ensures { (result ≡ scored (on.0 - off.0) number) × (result ≤ MOST_WEIGHT) }
{
    score(on.saturating_sub(off), number)
}

// What each unit adds to the score of a run of week t, 0 past the last.
fn weights(file: &File, t: usize) -> [u64; 16]
    requires { t < file.now.layout.weeks }
    ensures { Column file.now.layout.units (weight_of (problem file.now) t) result × Weights result }
{
    let units = file.layout.units;
    let mut table: [u64; 16] = [0; 16];
    let mut number: u64 = 1;
    for i in 0..units {
        let on = file.running_cost(t, i);
        let off = file.off_cost(t, i);
        table[i] = weight(on, off, number);
        number = next_number(number);
    }
    table
}

// ---- units that run whether they are needed or not

// The thrifty units found so far, and unit i where it is one: not out, and cheaper running than OFF.
fn thrifty_with(file: &File, t: usize, out: u32, i: usize, found: u32) -> u32
    requires { (t < file.now.layout.weeks) × (i < file.now.layout.units) }
    ensures { (j : ℕ) → has result j ≡ (has found j || thrifty_at (problem file.now) t (has out) j i) }
{
    if sets::has(out, i) {
        return found;
    }
    let on = file.running_cost(t, i);
    let off = file.off_cost(t, i);
    if on.0 < off.0 {
        return sets::with(found, i);
    }
    found
}

// The units that cost less running than OFF, of those not out (D88).
fn thrifty_run(file: &File, t: usize, out: u32) -> u32
    requires { t < file.now.layout.weeks }
    ensures { ThriftyRun (problem file.now) t (has out) result }
{
    // Without OFF costs nothing is cheaper than OFF.
    if file.layout.pairs <= file.layout.offs {
        return 0;
    }
    let units = file.layout.units;
    let mut found = 0;
    for i in 0..units {
        found = thrifty_with(file, t, out, i, found);
    }
    found
}

// What unit i costs in week t where it is not out.
fn line_cost(file: &File, t: usize, run: u32, i: usize) -> Euro
    requires { (t < file.now.layout.weeks) × (i < file.now.layout.units) }
    ensures { (result.0 ≡ line_cost (problem file.now) t run i) × (result.0 ≤ 250000) }
{
    if sets::has(run, i) {
        return file.running_cost(t, i);
    }
    file.off_cost(t, i)
}

// What a run costs in week t with all other units OFF.
fn full_cost(file: &File, t: usize, run: u32) -> Euro
    requires { t < file.now.layout.weeks }
    ensures { (result.0 ≡ full_cost (problem file.now) t run) × (result.0 ≤ 4000000) }
{
    let units = file.layout.units;
    let mut sum = Euro(0);
    for i in 0..units {
        sum += line_cost(file, t, run, i);
    }
    sum
}

// What is still needed in week t when a run is on.
fn still_needed(file: &File, t: usize, run: u32) -> Kilo
    requires { t < file.now.layout.weeks }
    ensures { result.0 ≡ (problem file.now).demand t - output (problem file.now) t (has run) }
{
    let need = file.demand(t);
    if run == 0 {
        return need;
    }
    let given = file.run_output(t, run);
    need.saturating_sub(given)
}

// ---- the cheapest run

// The least weight of units that need not run and give what is still needed beside those that run anyway.
fn least_weight(file: &File, t: usize, out: u32, thrifty: u32) -> u64
    requires t_lt_weeks { t < file.now.layout.weeks }
    requires thrifty_run { ThriftyRun (problem file.now) t (has out) thrifty }
    ensures { LeastWeight (problem file.now) t (has out) result }
{
    let caps = capacities(file, t);
    let table = weights(file, t);
    let need = still_needed(file, t, thrifty);
    let decided = sets::union(out, thrifty);
    cover::least(&caps, &table, file.layout.units, decided, need)
}

// The least score of a run of week t with these units out (D89).
fn least_score(file: &File, t: usize, out: u32) -> u64
    requires { t < file.now.layout.weeks }
    ensures { LeastScore (problem file.now) t (has out) result }
{
    let thrifty = thrifty_run(file, t, out);
    let least = least_weight(file, t, out, thrifty);
    if UNCOVERED <= least {
        return UNCOVERED;
    }
    // Without OFF costs no unit runs unasked, and those that do not run cost nothing.
    if file.layout.pairs <= file.layout.offs {
        return least;
    }
    score(full_cost(file, t, thrifty), thrifty as u64) + least
}

// The cheapest run of week t with these units out; of equals the one with the smallest number (D47). None where the others fall short even together.
pub fn cheapest(file: &File, t: usize, out: u32) -> Option<BestRun>
    requires { t < file.now.layout.weeks }
    ensures { Answers (problem file.now) t (has out) result }
{
    let score = least_score(file, t, out);
    if score < UNCOVERED {
        let off = file.off_sum(t, out);
        return Some(BestRun {
            number: number_in(score),
            cost: cost_in(score).saturating_sub(off),
        });
    }
    None
}

// What the cheapest run costs with OFF charged to the units out too, NO_RUN where there is none: UNCOVERED stands for the score then, and the
// same division tells both.
pub fn full_least(file: &File, t: usize, out: u32) -> Euro
    requires { t < file.now.layout.weeks }
    ensures { (result.0 ≡ full_least (problem file.now) t (has out)) × (result.0 ≤ NO_RUN) }
{
    cost_in(least_score(file, t, out))
}
