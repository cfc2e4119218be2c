// The table of sums: over the places below each place what bounds are made of, and what any number of them give at most.
ghost use Rattle.std.specs.Prelude.{◌≡◌, ◌+◌, ◌-◌, ◌*◌, ◌<◌, ◌≤◌};
ghost use Rattle.sums.specs.Table.{AtMost};
ghost use Rattle.states.specs.Choices.{idle};
ghost use Rattle.states.specs.SearchTables.{CostsInRange, AdviceInRange, NextTops, TopsTo, SearchTables, places_of, MOST_CAP, MOST_COST, MOST_NEED};

use crate::{Advice, Costs, Sums};

// ---- the terms

// What place i costs at least where it is not ON, with the price of being OUT.
pub fn idle_of(costs: &Costs, shut: u32, price: u64, i: usize) -> u64
    requires { CostsInRange costs.now × (price ≤ MOST_COST) × (i < 16) }
    ensures { (result ≡ idle (places_of costs.now shut) price i) × (result ≤ MOST_COST) }
{
    let off = costs.offs[i];
    if sets::has(shut, i) {
        return off;
    }
    off.min(price + costs.outs[i])
}

// What ON yields above its cost where a place counts for so much.
fn gained(rate: u64, count: u64, idle: u64, on: u64) -> u64
    requires { (rate ≤ MOST_COST) × (count ≤ MOST_CAP) × (idle ≤ MOST_COST) }
    ensures { result ≡ (rate * count + idle) - on }
{
    (rate * count + idle).saturating_sub(on)
}

// ---- the table

// What any number of the places up to one that gives so much give at most, from what any number of those before it give.
fn next_tops(before: &[u64; 17], cap: u64) -> [u64; 17]
    requires { AtMost MOST_NEED before.now × (cap ≤ MOST_CAP) }
    ensures { NextTops before.now cap 16 result }
{
    let mut tops: [u64; 17] = [0; 17];
    for j in 0..16 {
        tops[j + 1] = before[j + 1].max(before[j] + cap);
    }
    tops
}

// What any number of places give.
pub fn week_tops(costs: &Costs) -> [[u64; 17]; 17]
    requires { CostsInRange costs.now }
    ensures { TopsTo costs.now 16 result }
{
    let mut tops: [[u64; 17]; 17] = [[0; 17]; 17];
    for k in 0..16 {
        tops[k + 1] = next_tops(&tops[k], costs.caps[k]);
    }
    tops
}

// All sums, with what any number of places give.
pub fn week_sums(costs: &Costs, tops: [[u64; 17]; 17], a: Advice) -> Sums
    requires { CostsInRange costs.now × AdviceInRange a × TopsTo costs.now 16 tops }
    ensures { SearchTables costs.now result a }
{
    let mut sums = Sums {
        rooms: [0; 17],
        idles: [0; 17],
        gains: [0; 17],
        flats: [0; 17],
        counted_idles: [0; 17],
        counted_gains: [0; 17],
        tops,
    };
    for i in 0..16 {
        let cap = costs.caps[i];
        let on = costs.ons[i];
        let idle = idle_of(costs, a.shut, a.price, i);
        let counted_idle = idle_of(costs, a.shut, a.fee, i);
        sums.rooms[i + 1] = sums.rooms[i] + cap;
        sums.idles[i + 1] = sums.idles[i] + idle;
        sums.gains[i + 1] = sums.gains[i] + gained(a.rate, cap, idle, on);
        sums.flats[i + 1] = sums.flats[i] + idle.min(on);
        sums.counted_idles[i + 1] = sums.counted_idles[i] + counted_idle;
        sums.counted_gains[i + 1] = sums.counted_gains[i] + gained(a.unit, 1, counted_idle, on);
    }
    sums
}
