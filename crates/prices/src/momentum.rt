// Pushes on prices, one for each week and unit, up or down. From round to round a push keeps three quarters of itself, which is its momentum: it is
// large where a unit and a week have long wanted different things in the same way.
ghost use Rattle.std.specs.Prelude.{◌≡◌, ◌<◌, ◌≤◌};
ghost use Rattle.sums.specs.Table.{AtMost};
ghost use Rattle.model.specs.Schedule.{in_span};
ghost use Rattle.prices.specs.Ranges.{PLACES, LEVEL, ROUND_PUSH, MOST_PUSH, MOST_SQUARE, MOST_NORM};

use crate::wants::Wants;
use instance::File;
use model::Layout;

// A push for each price: 52 weeks of 16 units.
pub const PLACES: usize = 832;
// A push of none; more pushes a price up, less pushes it down.
pub const LEVEL: u32 = 1024;
// What a round adds to a push, or takes from it.
const ROUND_PUSH: u32 = 256;
// The square of that.
const ROUND_PUSH_SQUARED: u64 = 65536;

// The push at a place.
pub fn push_at(push: &[u32; PLACES], place: usize) -> u32
    requires { (place < PLACES) × AtMost MOST_PUSH push.now }
    ensures { result ≤ MOST_PUSH }
{
    push[place]
}

// Whether week t lies in an overhaul.
fn in_overhaul(start: u32, duration: usize, t: usize) -> bool
    requires { (duration ≤ 52) × (t < 52) }
    ensures { result ≡ in_span start duration t }
{
    let first = start as usize;
    first <= t + 1 && t + 1 < first + duration
}

// The push of a round, where there is one.
fn push_of(yes: bool) -> u32
    ensures { result ≤ ROUND_PUSH }
{
    if yes { ROUND_PUSH } else { 0 }
}

// A push a round on: three quarters as before, and up or down.
fn next_push(push: u32, up: u32, down: u32) -> u32
    requires { (push ≤ MOST_PUSH) × (up ≤ ROUND_PUSH) × (down ≤ ROUND_PUSH) }
    ensures { result ≤ MOST_PUSH }
{
    (push * 3 + LEVEL) / 4 + up - down
}

// Updates the pushes of unit i: up where its least start has it out, down where the week wants it out.
fn update_unit(file: &File, wants: &Wants, i: usize, push: &mut [u32; PLACES])
    requires { (i < file.now.layout.units) × AtMost MOST_PUSH push.old }
    ensures { AtMost MOST_PUSH push.new }
{
    let start = wants.starts[i];
    let duration = file.duration(i);
    for t in 0..file.layout.weeks {
        let up = push_of(in_overhaul(start, duration, t));
        let down = push_of(sets::has(wants.out[t], i));
        let place = t * 16 + i;
        push[place] = next_push(push_at(push, place), up, down);
    }
}

// Updates the pushes of all units.
pub fn update_momentum(file: &File, wants: &Wants, push: &mut [u32; PLACES])
    requires { AtMost MOST_PUSH push.old }
    ensures { AtMost MOST_PUSH push.new }
{
    for i in 0..file.layout.units {
        update_unit(file, wants, i, push);
    }
}

// How far a push lies from none.
pub fn magnitude(push: u32) -> u64
    requires { push ≤ MOST_PUSH }
    ensures { result ≤ LEVEL }
{
    push.abs_diff(LEVEL) as u64
}

// The square of that.
fn squared_magnitude(push: u32) -> u64
    requires { push ≤ MOST_PUSH }
    ensures { result ≤ MOST_SQUARE }
{
    let x = magnitude(push);
    x * x
}

// The sum of the squares of the pushes; one price pushed once counts 1.
pub fn squared_norm(l: Layout, push: &[u32; PLACES]) -> u64
    requires { (l.weeks ≤ 52) × AtMost MOST_PUSH push.now }
    ensures { result ≤ MOST_NORM }
{
    let mut sum = 0;
    for k in 0..l.weeks * 16 {
        sum += squared_magnitude(push_at(push, k));
    }
    sum / ROUND_PUSH_SQUARED
}
