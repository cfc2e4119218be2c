// What bounds are taken at: a rate for the need and a price for each place OUT, by weights and, where places are counted, by numbers. Any rates and
// prices bound; these are taken where a bound is high: the rate of the place that completes the need, the lightest first, and the price at which as many
// places would be OUT as crews are left. Each is found at the other, three times over.
ghost use Rattle.std.specs.Prelude.{◌≡◌, ◌*◌, ◌<◌, ◌≤◌, IfSome, get_or};
ghost use Rattle.sums.specs.Table.{AtMost};
ghost use Rattle.states.specs.SearchTables.{CostsInRange, AdviceInRange, MOST_CAP, MOST_COST};

use crate::{Advice, Costs, bounds, totals};
use std::array;

// The highest rate and price.
const MOST_COST: u64 = 34359738368;

// A rate and a price.
#[derive(Clone, Copy)]
struct RatePair {
    rate: u64,
    price: u64,
}

// ---- one place

// What place i counts for: what it gives, or 1 where places are counted and it gives something.
fn count_of(costs: &Costs, counted: bool, i: usize) -> u64
    requires { CostsInRange costs.now × (i < 16) }
    ensures { result ≤ MOST_CAP }
{
    let cap = costs.caps[i];
    if counted { cap.min(1) } else { cap }
}

// What ON costs place i above idle.
fn weight_of(costs: &Costs, shut: u32, price: u64, i: usize) -> u64
    requires { CostsInRange costs.now × (price ≤ MOST_COST) × (i < 16) }
    ensures { result ≤ MOST_COST }
{
    costs.ons[i].saturating_sub(totals::idle_of(costs, shut, price, i))
}

// What OUT saves at place i, where it may be OUT and so much is lost where it is not ON.
fn saved_of(costs: &Costs, shut: u32, lost: u64, i: usize) -> u64
    requires { CostsInRange costs.now × (i < 16) }
    ensures { result ≤ MOST_COST }
{
    if sets::has(shut, i) {
        return 0;
    }
    let on = costs.ons[i].saturating_sub(lost);
    costs.offs[i].min(on).saturating_sub(costs.outs[i])
}

// ---- all places

fn all_counts(costs: &Costs, counted: bool) -> [u64; 16]
    requires { CostsInRange costs.now }
    ensures { AtMost MOST_CAP result }
{
    array::from_fn(|i| count_of(costs, counted, i))
}

fn all_weights(costs: &Costs, shut: u32, price: u64) -> [u64; 16]
    requires { CostsInRange costs.now × (price ≤ MOST_COST) }
    ensures { AtMost MOST_COST result }
{
    array::from_fn(|i| weight_of(costs, shut, price, i))
}

fn all_saved(costs: &Costs, counts: &[u64; 16], shut: u32, rate: u64) -> [u64; 16]
    requires { CostsInRange costs.now × AtMost MOST_CAP counts.now × (rate ≤ MOST_COST) }
    ensures { AtMost MOST_COST result }
{
    array::from_fn(|i| saved_of(costs, shut, rate * counts[i], i))
}

// ---- the lightest first

// The lightest place for what it counts, the first of equals, of those that are not used and count for something.
fn lightest(counts: &[u64; 16], weights: &[u64; 16], used: u32) -> Option<usize>
    requires { AtMost MOST_CAP counts.now × AtMost MOST_COST weights.now }
    ensures { IfSome result (λ k. (k < 16) × (0 < get_or counts.now k 0)) }
{
    let mut best: Option<usize> = None;
    for k in 0..16 {
        if sets::has(used, k) || counts[k] == 0 {
            continue;
        }
        best = match best {
            Some(b) if weights[b] * counts[k] <= weights[k] * counts[b] => Some(b),
            _ => Some(k),
        };
    }
    best
}

// The rate of the place that completes the need, the lightest first.
fn rate_at(costs: &Costs, counts: &[u64; 16], shut: u32, price: u64, need: u64) -> u64
    requires { CostsInRange costs.now × AtMost MOST_CAP counts.now × (price ≤ MOST_COST) }
    ensures { result ≤ MOST_COST }
{
    let weights = all_weights(costs, shut, price);
    let mut given: u64 = 0;
    let mut used: u32 = 0;
    let mut rate: u64 = 0;
    for _ in 0..counts.len() {
        if need <= given {
            break;
        }
        let Some(k) = lightest(counts, &weights, used) else {
            break;
        };
        given += counts[k];
        used = sets::with(used, k);
        rate = weights[k] / counts[k];
    }
    rate
}

// ---- the dearest first

// What OUT saves where one crew more would be wanted.
fn price_at(costs: &Costs, counts: &[u64; 16], shut: u32, rate: u64, crews: usize) -> u64
    requires { CostsInRange costs.now × AtMost MOST_CAP counts.now × (rate ≤ MOST_COST) }
    ensures { result ≤ MOST_COST }
{
    let mut saved = all_saved(costs, counts, shut, rate);
    saved.sort_unstable();
    saved.iter().rev().nth(crews).copied().unwrap_or(0)
}

// ---- both

// A rate and a price, each taken at the other: none is OUT where no crew is left, and the price is 0 where crews suffice.
fn rate_and_price(costs: &Costs, counted: bool, shut: u32, need: u64, crews: usize) -> RatePair
    requires { CostsInRange costs.now }
    ensures { (result.rate ≤ MOST_COST) × (result.price ≤ MOST_COST) }
{
    let counts = all_counts(costs, counted);
    if crews == 0 {
        return RatePair {
            rate: rate_at(costs, &counts, shut, MOST_COST, need),
            price: MOST_COST,
        };
    }
    let first = rate_at(costs, &counts, shut, 0, need);
    let price = price_at(costs, &counts, shut, first, crews);
    if price == 0 {
        return RatePair { rate: first, price };
    }
    let second = rate_at(costs, &counts, shut, price, need);
    let last = price_at(costs, &counts, shut, second, crews);
    RatePair {
        rate: rate_at(costs, &counts, shut, last, need),
        price: last,
    }
}

// What bounds are taken at, for a need and so many crews.
pub fn advise(
    costs: &Costs,
    tops: &[[u64; 17]; 17],
    units: usize,
    shut: u32,
    need: u64,
    crews: usize,
) -> Advice
    requires { CostsInRange costs.now × (units ≤ 16) }
    ensures { AdviceInRange result × (result.shut ≡ shut) }
{
    let weighed = rate_and_price(costs, false, shut, need, crews);
    let ons = bounds::ons_needed(&tops[units], units, need);
    let counted = rate_and_price(costs, true, shut, ons, crews);
    Advice {
        rate: weighed.rate,
        price: weighed.price,
        unit: counted.rate,
        fee: counted.price,
        shut,
    }
}
