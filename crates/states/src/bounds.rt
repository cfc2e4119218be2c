// Lower bounds of what every choice from a node costs, each by a rate for the need and a price for each place OUT.
ghost use Rattle.std.specs.Prelude.{◌≡◌, ℕ, ◌+◌, ◌-◌, ◌*◌, ◌<◌, ◌≤◌};
ghost use Rattle.sums.specs.NumSet.{has};
ghost use Rattle.states.specs.Choices.{ChoiceFloor};
ghost use Rattle.states.specs.SearchTables.{SearchTables, OnsShort, places_of, MOST_COST, MOST_COST_SUM, MOST_GAIN_SUM, MOST_NEED, MOST_SCORE};

use crate::{Advice, Costs, StateNode, Sums};

// ---- plain numbers

// What every choice from here costs at least, by rate and price: from the sums over the places left.
fn rated(rate: u64, price: u64, idle: u64, gain: u64, need: u64, crews: u64, score: u64) -> u64
    requires { (rate ≤ MOST_COST) × (price ≤ MOST_COST) × (idle ≤ MOST_COST_SUM) × (gain ≤ MOST_GAIN_SUM) × (need ≤ MOST_NEED) × (crews ≤ 16)
        × (score ≤ MOST_SCORE) }
    ensures { result ≡ (score + rate * need + idle) - (gain + price * crews) }
{
    (score + rate * need + idle).saturating_sub(gain + price * crews)
}

// ---- a node

// What every choice from here costs at least, by rate and price.
fn rate_bound(costs: &Costs, sums: &Sums, a: Advice, k: usize, y: StateNode) -> u64
    requires { SearchTables costs.now sums.now a × (k ≤ 16) × (y.need ≤ MOST_NEED) × (y.crews ≤ 16) × (y.score ≤ MOST_SCORE) }
    ensures { ChoiceFloor (places_of costs.now a.shut) k y.need y.crews (has y.bar) y.score result }
{
    let idle = sums.idles[k];
    let gain = sums.gains[k];
    rated(a.rate, a.price, idle, gain, y.need, y.crews, y.score)
}

// What every choice from here costs at least, by the price alone.
fn flat_bound(costs: &Costs, sums: &Sums, a: Advice, k: usize, y: StateNode) -> u64
    requires { SearchTables costs.now sums.now a × (k ≤ 16) × (y.crews ≤ 16) × (y.score ≤ MOST_SCORE) }
    ensures { ChoiceFloor (places_of costs.now a.shut) k y.need y.crews (has y.bar) y.score result }
{
    (y.score + sums.flats[k]).saturating_sub(a.price * y.crews)
}

// How many places are ON at least: more than j wherever any j of the places below k give less than is needed.
pub fn ons_needed(tops: &[u64; 17], k: usize, need: u64) -> u64
    requires { k ≤ 16 }
    ensures { OnsShort tops.now k need result }
{
    let short = tops[..k].iter().position(|most| need <= *most);
    short.unwrap_or(k) as u64
}

// What every choice from here costs at least, by a rate and a price where places are counted.
pub fn count_bound(costs: &Costs, sums: &Sums, a: Advice, k: usize, y: StateNode) -> u64
    requires { SearchTables costs.now sums.now a × (k ≤ 16) × (y.crews ≤ 16) × (y.score ≤ MOST_SCORE) }
    ensures { ChoiceFloor (places_of costs.now a.shut) k y.need y.crews (has y.bar) y.score result }
{
    let idle = sums.counted_idles[k];
    let gain = sums.counted_gains[k];
    let ons = ons_needed(&sums.tops[k], k, y.need);
    rated(a.unit, a.fee, idle, gain, ons, y.crews, y.score)
}

// What every choice from here costs at least, by its score, rate and price.
pub fn weighed(costs: &Costs, sums: &Sums, a: Advice, k: usize, y: StateNode) -> u64
    requires { SearchTables costs.now sums.now a × (k ≤ 16) × (y.need ≤ MOST_NEED) × (y.crews ≤ 16) × (y.score ≤ MOST_SCORE) }
    ensures { ChoiceFloor (places_of costs.now a.shut) k y.need y.crews (has y.bar) y.score result }
{
    let one = rate_bound(costs, sums, a, k, y);
    let two = flat_bound(costs, sums, a, k, y);
    y.score.max(one.max(two))
}
