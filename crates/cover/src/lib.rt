// A need covered by free units at the least weight. The choice goes depth first from the highest unit down, each left out before it is taken, and is
// cut where the units left cannot suffice, or cannot get below the best. Sets of units are the bits of a word; tables have a place for each of 16.
#![tactic(auto)]

ghost use Rattle.std.specs.Prelude.{◌≡◌, ◌+◌, ◌-◌, ◌*◌, ◌<◌, ◌≤◌, leb};
ghost use Rattle.sums.specs.Sum.{sum_to};
ghost use Rattle.sums.specs.NumSet.{has, complement, only_in};
ghost use Rattle.sums.specs.Table.{entry};
ghost use Rattle.cover.specs.Cover.{UNCOVERED, Candidate, LeastCover, cover_to};
ghost use Rattle.cover.specs.Tables.{MOST_WEIGHT, MOST_GAIN, Caps, Weights, surplus, spared, Cuts, CoverTables};

use instance::Kilo;

// 2^44: stands for the weight where nothing covers.
pub const UNCOVERED: u64 = 17592186044416;

// The table that cuts the choice has at place k what the free units below k give together, behind that what they yield together above their weights,
// and the rate.
const GAINS: usize = 17;

const RATE: usize = 34;

const CUTS: usize = 35;

// Advice on a cover: a rate, the weight to be charged for a kilogram, and a guess at the units, which may have units that are out. It decides the
// time that is taken, and nothing else.
#[derive(Clone, Copy)]
struct Advice {
    rate: u64,
    guess: u32,
}

// a / b, 0 where b is 0.
fn ratio(a: u64, b: u64) -> u64
    ensures { result ≤ a }
{
    if b == 0 {
        return 0;
    }
    a / b
}

// Unit i where it is lighter for a kilogram than the unit found so far, else that one. 16 stands for none; units in `used` and units that give
// nothing do not count.
fn lighter(caps: &[u64; 16], weights: &[u64; 16], used: u32, i: usize, found: usize) -> usize
    requires { Caps caps.now × Weights weights.now × (i < 16) × (found ≤ 16) }
    ensures { result ≤ 16 }
{
    if sets::has(used, i) {
        return found;
    }
    if caps[i] == 0 {
        return found;
    }
    if found == 16 {
        return i;
    }
    if weights[i] * caps[found] < weights[found] * caps[i] {
        return i;
    }
    found
}

// The unit that is lightest for a kilogram among those not in `used`, 16 where none gives anything.
fn lightest(caps: &[u64; 16], weights: &[u64; 16], used: u32) -> usize
    requires { Caps caps.now × Weights weights.now }
    ensures { result ≤ 16 }
{
    let mut found = 16;
    for i in 0..16 {
        found = lighter(caps, weights, used, i, found);
    }
    found
}

// Takes the units that are lightest for a kilogram until they give what is needed (D49).
fn advise(caps: &[u64; 16], weights: &[u64; 16], u: usize, out: u32, need: Kilo) -> Advice
    requires { Caps caps.now × Weights weights.now }
    ensures { result.rate ≤ MOST_WEIGHT }
{
    // The units out count as taken, so that none of them is; when the guess is weighed they are left out again.
    let mut guess = out;
    let mut rate = 0;
    let mut left = need;
    for n in 0..u {
        if left.0 == 0 {
            break;
        }
        let i = lightest(caps, weights, guess);
        if i == 16 {
            break;
        }
        rate = ratio(weights[i], caps[i]);
        guess = sets::with(guess, i);
        left = left.saturating_sub(Kilo(caps[i]));
    }
    Advice { rate, guess }
}

// What unit i adds to a sum over the units of a guess that are not out.
fn spared_part(table: &[u64; 16], out: u32, guess: u32, i: usize) -> u64
    requires { i < 16 }
    ensures { result ≡ only_in (spared out guess) (entry table.now) i }
{
    if sets::has(out, i) {
        return 0;
    }
    if sets::has(guess, i) {
        return table[i];
    }
    0
}

// What the units of a guess that are not out give together, of those below u.
fn guess_output(caps: &[u64; 16], u: usize, out: u32, guess: u32) -> Kilo
    requires { Caps caps.now × (u ≤ 16) }
    ensures { result.0 ≡ sum_to u (only_in (spared out guess) (entry caps.now)) }
{
    let mut sum = Kilo(0);
    for i in 0..u {
        sum += Kilo(spared_part(caps, out, guess, i));
    }
    sum
}

// What they weigh together.
fn guess_weight(weights: &[u64; 16], u: usize, out: u32, guess: u32) -> u64
    requires { Weights weights.now × (u ≤ 16) }
    ensures { result ≡ sum_to u (only_in (spared out guess) (entry weights.now)) }
{
    let mut sum = 0;
    for i in 0..u {
        sum += spared_part(weights, out, guess, i);
    }
    sum
}

// What the guess weighs without the units that are out, where that is a cover with units below u.
fn guess_weight_if_cover(
    caps: &[u64; 16],
    weights: &[u64; 16],
    u: usize,
    out: u32,
    guess: u32,
    need: Kilo,
) -> u64
    requires { Caps caps.now × Weights weights.now × (u ≤ 16) }
    ensures { Candidate (complement (has out)) (entry caps.now) (entry weights.now) u need.0 result }
{
    let given = guess_output(caps, u, out, guess);
    if given.0 < need.0 {
        return UNCOVERED;
    }
    guess_weight(weights, u, out, guess)
}

// What unit i gives where it is not out.
fn free_capacity(caps: &[u64; 16], out: u32, i: usize) -> Kilo
    requires { i < 16 }
    ensures { result.0 ≡ only_in (complement (has out)) (entry caps.now) i }
{
    if sets::has(out, i) {
        return Kilo(0);
    }
    Kilo(caps[i])
}

// What unit i yields above its weight where it is not out, at the rate for a kilogram.
fn free_surplus(caps: &[u64; 16], weights: &[u64; 16], rate: u64, out: u32, i: usize) -> u64
    requires { Caps caps.now × (rate ≤ MOST_WEIGHT) × (i < 16) }
    ensures { result ≡ only_in (complement (has out)) (surplus rate (entry caps.now) (entry weights.now)) i }
{
    if sets::has(out, i) {
        return 0;
    }
    (rate * caps[i]).saturating_sub(weights[i])
}

// Puts what the free units up to unit k give together, and what they yield, into a table that has this for the units below it.
fn put_unit(
    caps: &[u64; 16],
    weights: &[u64; 16],
    rate: u64,
    out: u32,
    k: usize,
    cuts: &mut [u64; CUTS],
)
    requires { Caps caps.now × (rate ≤ MOST_WEIGHT) × (k < 16)
        × Cuts (complement (has out)) (entry caps.now) (surplus rate (entry caps.now) (entry weights.now)) rate k cuts.old }
    ensures { Cuts (complement (has out)) (entry caps.now) (surplus rate (entry caps.now) (entry weights.now)) rate (k + 1)
        cuts.new }
{
    let room = Kilo(cuts[k]) + free_capacity(caps, out, k);
    let gain = cuts[GAINS + k] + free_surplus(caps, weights, rate, out, k);
    cuts[k + 1] = room.0;
    cuts[GAINS + k + 1] = gain;
}

// The table that cuts the choice.
fn cuts_of(caps: &[u64; 16], weights: &[u64; 16], rate: u64, out: u32) -> [u64; CUTS]
    requires { Caps caps.now × (rate ≤ MOST_WEIGHT) }
    ensures { Cuts (complement (has out)) (entry caps.now) (surplus rate (entry caps.now) (entry weights.now)) rate 16 result }
{
    let mut cuts: [u64; CUTS] = [0; CUTS];
    cuts[RATE] = rate;
    for k in 0..16 {
        put_unit(caps, weights, rate, out, k, &mut cuts);
    }
    cuts
}

// Whether no cover from here can get below the best. Charge the rate for every kilogram still needed: free units repay at most the gain, so the rest
// of a cover weighs at least the rate times the need, less the gain.
fn hopeless(rate: u64, gain: u64, need: Kilo, weight: u64, best: u64) -> bool
    requires { (rate ≤ MOST_WEIGHT) × (gain ≤ MOST_GAIN) × (need.0 ≤ 16000000) × (weight < best) × (best ≤ UNCOVERED) }
    ensures { result ≡ leb (best + gain) (weight + rate * need.0) }
{
    best + gain <= weight + rate * need.0
}

// The weight with unit i taken as well.
fn weight_with(weights: &[u64; 16], i: usize, weight: u64) -> u64
    requires { Weights weights.now × (i < 16) × (weight < UNCOVERED) }
    ensures { result ≡ weight + entry weights.now i }
{
    weight + weights[i]
}

// The best weight after all choices among the units below k, where those taken so far have this weight and leave this need (D48).
fn walk(
    caps: &[u64; 16],
    weights: &[u64; 16],
    cuts: &[u64; CUTS],
    out: u32,
    k: usize,
    need: Kilo,
    weight: u64,
    best: u64,
) -> u64
    requires { CoverTables out caps.now weights.now cuts.now × (k ≤ 16) × (best ≤ UNCOVERED) }
    ensures { (result ≡ cover_to (complement (has out)) (entry caps.now) (entry weights.now) k need.0 weight best)
        × (result ≤ best) }
{
    if best <= weight {
        return best;
    }
    if cuts[k] < need.0 {
        return best;
    }
    if hopeless(cuts[RATE], cuts[GAINS + k], need, weight, best) {
        return best;
    }
    if k == 0 {
        // No unit is left, so the room is 0, and so is the need.
        return weight;
    }
    let top = k - 1;
    let low = walk(caps, weights, cuts, out, top, need, weight, best);
    if sets::has(out, top) {
        return low;
    }
    let rest = need.saturating_sub(Kilo(caps[top]));
    walk(
        caps,
        weights,
        cuts,
        out,
        top,
        rest,
        weight_with(weights, top, weight),
        low,
    )
}

// The least weight of a cover with units below u that are not out.
pub fn least(caps: &[u64; 16], weights: &[u64; 16], u: usize, out: u32, need: Kilo) -> u64
    requires { Caps caps.now × Weights weights.now × (u ≤ 16) }
    ensures { LeastCover (complement (has out)) (entry caps.now) (entry weights.now) u need.0 result }
{
    let advice = advise(caps, weights, u, out, need);
    let start = guess_weight_if_cover(caps, weights, u, out, advice.guess, need);
    let cuts = cuts_of(caps, weights, advice.rate, out);
    walk(caps, weights, &cuts, out, u, need, 0, start)
}
