// A unit's overhaul: the weeks in which it may start, and what it costs in maintenance from each; and what the unit costs OFF over the season.
// Weeks and units count from 0, starts from 1.
#![tactic(auto)]

ghost use Rattle.std.specs.Prelude.{◌≡◌, true, ◌<◌, ◌≤◌};
ghost use Rattle.model.specs.Domain.{permitted};
ghost use Rattle.model.specs.Plan.{upkeep};
ghost use Rattle.instance.specs.File.{problem};
ghost use Rattle.overhaul.specs.Range.{last_start, StartRange};
ghost use Rattle.overhaul.specs.Off.{off_weeks};

use instance::{Euro, File};

// The permitted starts of a unit: from the first to the last; none where the last lies before the first.
#[derive(Clone, Copy)]
pub struct Starts {
    pub first: usize,
    pub last: usize,
}

// The permitted starts of unit i.
pub fn starts_of(file: &File, i: usize) -> Starts
    requires { i < file.now.layout.units }
    ensures ends { (result.first ≡ (problem file.now).earliest i) × (result.last ≡ last_start (problem file.now) i) }
    ensures range { StartRange (problem file.now) i result.first result.last × (1 ≤ result.first) × (result.last ≤ file.now.layout.weeks) }
{
    let first = file.earliest(i);
    let latest = file.latest(i);
    let duration = file.duration(i);
    // From a later start the overhaul would not end in the season.
    let last = latest.min(file.layout.weeks - duration + 1);
    Starts { first, last }
}

// What the overhaul of unit i costs in maintenance from a permitted start.
pub fn upkeep(file: &File, i: usize, start: usize) -> Euro
    requires i_lt_units { i < file.now.layout.units }
    requires start_value { permitted (problem file.now) i start ≡ true }
    ensures { (result.0 ≡ upkeep (problem file.now) i start) × (result.0 ≤ 13000000) }
{
    let duration = file.duration(i);
    let first = start - 1;
    let mut sum = Euro(0);
    for k in 0..duration {
        sum += file.maint_cost(first + k, i);
    }
    sum
}

// What unit i costs OFF in all weeks.
pub fn off_weeks(file: &File, i: usize) -> Euro
    requires { i < file.now.layout.units }
    ensures { (result.0 ≡ off_weeks (problem file.now) i) × (result.0 ≤ 13000000) }
{
    let weeks = file.layout.weeks;
    let mut sum = Euro(0);
    for t in 0..weeks {
        sum += file.off_cost(t, i);
    }
    sum
}
