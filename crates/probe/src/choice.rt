// The unit that a probe places next. Nothing rests on which it is: a test at the end sees that it is one that is not placed.
ghost use Rattle.std.specs.Prelude.{◌≡◌, ◌+◌, ◌<◌, ◌≤◌};
ghost use Rattle.sums.specs.NumSet.{has};
ghost use Rattle.probe.specs.Probe.{Chosen};

use instance::{Euro, File, Kilo};
use model::Layout;
use overhaul::Starts;
use sets::SETS;
use tables::TABLES;

// ---- weeks that are shut for a unit

// All units.
const EVERY: u32 = SETS - 1;

// A set with the partners of unit i, where unit i is out.
fn with_partners(tables: &[u32; TABLES], set: u32, out: u32, i: usize) -> u32
    requires { i < 16 }
{
    if sets::has(out, i) {
        return sets::union(set, tables::partners(tables, i));
    }
    set
}

// The partners of the units out.
fn barred(l: Layout, tables: &[u32; TABLES], out: u32) -> u32
    requires { l.units ≤ 16 }
{
    let units = l.units;
    let mut set = 0;
    for i in 0..units {
        set = with_partners(tables, set, out, i);
    }
    set
}

// A set with unit i, where the others do not give what can be spared.
fn with_needed(set: u32, i: usize, capacity: Kilo, spare: Kilo) -> u32
    requires { i < 16 }
{
    if spare.0 < capacity.0 {
        return sets::with(set, i);
    }
    set
}

// The units whose capacity is more than what can be spared in week t.
fn needed(file: &File, t: usize, spare: Kilo) -> u32 {
    let units = file.layout.units;
    let mut set = 0;
    for i in 0..units {
        set = with_needed(set, i, file.capacity(t, i), spare);
    }
    set
}

// What the units not out give in week t above the demand; 0 where they fall short of it.
fn spare_in(file: &File, t: usize, out: u32) -> Kilo
    requires { (t < file.now.layout.weeks) }
{
    let all = file.run_output(t, EVERY);
    let lost = file.run_output(t, out);
    let demand = file.demand(t);
    all.saturating_sub(lost).saturating_sub(demand)
}

// The units for which week t is shut: all where as many are out as there are crews; else the partners of those out, and each without which the
// demand is not met.
fn shut_units(file: &File, tables: &[u32; TABLES], t: usize, word: u64) -> u32
    requires { (t < file.now.layout.weeks) }
{
    if file.crews() <= bound::row_count(word) {
        return EVERY;
    }
    let out = bound::row_units(word);
    let spare = spare_in(file, t, out);
    sets::union(barred(file.layout, tables, out), needed(file, t, spare))
}

// The same for each week.
fn shut_weeks(file: &File, tables: &[u32; TABLES], rows: &[u64; 52]) -> [u32; 52] {
    let weeks = file.layout.weeks;
    let mut shut: [u32; 52] = [0; 52];
    for t in 0..weeks {
        shut[t] = shut_units(file, tables, t, rows[t]);
    }
    shut
}

// ---- starts that are open

// How many weeks one after the other are open for unit i with one more.
fn open_run(set: u32, i: usize, run: usize) -> usize
    requires { (i < 16) × (run < 64) }
    ensures { result ≤ run + 1 }
{
    if sets::has(set, i) {
        return 0;
    }
    run + 1
}

// 1 where the excess of a start leaves the bound below what is wanted.
fn affordable(tables: &[u32; TABLES], i: usize, start: usize, room: Euro) -> usize
    requires { (i < 16) × (start < 64) }
    ensures { result ≤ 1 }
{
    if tables::excess(tables, i, start).0 < room.0 {
        return 1;
    }
    0
}

// 1 where the start of unit i is open whose last week is t, after so many open weeks.
fn opens(
    tables: &[u32; TABLES],
    i: usize,
    starts: Starts,
    duration: usize,
    t: usize,
    run: usize,
    room: Euro,
) -> usize
    requires { (i < 16) × (starts.last ≤ 52) × (t < 64) }
    ensures { result ≤ 1 }
{
    if run < duration {
        return 0;
    }
    if t + 1 < duration {
        return 0;
    }
    let start = t + 2 - duration;
    if start < starts.first {
        return 0;
    }
    if starts.last < start {
        return 0;
    }
    affordable(tables, i, start, room)
}

// How many starts of unit i are open: permitted, no week of them shut for the unit, their excess below the room.
fn open_starts(file: &File, tables: &[u32; TABLES], shut: &[u32; 52], i: usize, room: Euro) -> usize
    requires { (i < file.now.layout.units) }
    ensures { result ≤ 52 }
{
    let starts = overhaul::starts_of(file, i);
    let duration = file.duration(i);
    let weeks = file.layout.weeks;
    let mut run = 0;
    let mut count = 0;
    for t in 0..weeks {
        run = open_run(shut[t], i, run);
        count += opens(tables, i, starts, duration, t, run, room);
    }
    count
}

// ---- the unit with the fewest

// A unit with the number of its open starts and the length of its overhaul.
#[derive(Clone, Copy)]
struct Narrow {
    unit: usize,
    open: usize,
    weeks: usize,
}

// The narrower of two: with fewer open starts, then the longer, then the first.
fn narrower(a: Narrow, b: Narrow) -> Narrow {
    if b.open < a.open {
        return b;
    }
    if a.open < b.open {
        return a;
    }
    if a.weeks < b.weeks {
        return b;
    }
    a
}

// The narrower of one and unit i, where unit i is not placed.
fn consider(
    file: &File,
    tables: &[u32; TABLES],
    shut: &[u32; 52],
    placed: u32,
    i: usize,
    room: Euro,
    best: Narrow,
) -> Narrow
    requires { (i < file.now.layout.units) }
{
    if sets::has(placed, i) {
        return best;
    }
    let open = open_starts(file, tables, shut, i, room);
    let weeks = file.duration(i);
    narrower(
        best,
        Narrow {
            unit: i,
            open,
            weeks,
        },
    )
}

// More than any unit has starts.
const NONE_OPEN: usize = 64;

// Of the units not placed, rising, the one with the fewest open starts; the first that has none at once.
fn narrowest(
    file: &File,
    tables: &[u32; TABLES],
    rows: &[u64; 52],
    placed: u32,
    room: Euro,
) -> usize {
    let units = file.layout.units;
    let shut = shut_weeks(file, tables, rows);
    let mut best = Narrow {
        unit: units,
        open: NONE_OPEN,
        weeks: 0,
    };
    for i in 0..units {
        let next = consider(file, tables, &shut, placed, i, room, best);
        best = next;
        if best.open == 0 {
            return best.unit;
        }
    }
    best.unit
}

// The first unit that is not placed, or as many as there are.
fn first_free(l: Layout, placed: u32) -> usize
    requires { l.units ≤ 16 }
    ensures { Chosen l.units placed result }
{
    let units = l.units;
    for i in 0..units {
        if !sets::has(placed, i) {
            return i;
        }
    }
    units
}

// Unit i, where it is not placed; else another.
fn free_or(units: usize, placed: u32, i: usize, other: usize) -> usize
    requires { (units ≤ 16) × Chosen units placed other }
    ensures { Chosen units placed result }
{
    if units <= i {
        return other;
    }
    if sets::has(placed, i) {
        return other;
    }
    i
}

// A unit that is not placed; as many as there are units where all are.
pub fn choose(
    file: &File,
    tables: &[u32; TABLES],
    rows: &[u64; 52],
    placed: u32,
    room: Euro,
) -> usize
    ensures { Chosen file.now.layout.units placed result }
{
    let units = file.layout.units;
    let first = first_free(file.layout, placed);
    if units <= first {
        return first;
    }
    let narrow = narrowest(file, tables, rows, placed, room);
    free_or(units, placed, narrow, first)
}
