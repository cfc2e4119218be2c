// A node of the search: what comes of its highest place in each state, the order of the states, and whether it is worth going on.
ghost use Rattle.std.specs.Prelude.{◌≡◌, ltb, get_or, ◌+◌, ◌-◌, ◌*◌, ◌<◌, ◌≤◌};
ghost use Rattle.sums.specs.NumSet.{has};
ghost use Rattle.states.specs.Choices.{EachState, ChildComes, NodeSeen, NodeIs, ChildIs, may_go, barred};
ghost use Rattle.states.specs.SearchTables.{SearchTables, CostsInRange, places_of, MOST_COST, MOST_SCORE};

use crate::{Advice, Costs, Looked, PlaceState, StateFound, StateNode, Sums, bounds};

// ---- what comes of a place

// The node with place i ON.
fn child_on(costs: &Costs, i: usize, y: StateNode) -> StateNode
    requires { CostsInRange costs.now × (i < 16) × (y.score ≤ MOST_SCORE) }
    ensures { NodeIs (y.need - get_or costs.now.caps i 0) y.crews (y.score + get_or costs.now.ons i 0) (has y.bar) result }
{
    StateNode {
        need: y.need.saturating_sub(costs.caps[i]),
        score: y.score + costs.ons[i],
        ..y
    }
}

// The node with place i OFF: not where ON costs no more.
fn child_off(costs: &Costs, i: usize, y: StateNode) -> Option<StateNode>
    requires { CostsInRange costs.now × (i < 16) × (y.score ≤ MOST_SCORE) }
    ensures { ChildIs (ltb (get_or costs.now.offs i 0) (get_or costs.now.ons i 0)) y.need y.crews
        (y.score + get_or costs.now.offs i 0) (has y.bar) result }
{
    let off = costs.offs[i];
    if costs.ons[i] <= off {
        return None;
    }
    Some(StateNode {
        score: y.score + off,
        ..y
    })
}

// Whether place i is tried OUT: not where OFF costs no more, no crew is left, or the place is barred.
fn may_go(off: u64, out: u64, crews: u64, bar: u32, i: usize) -> bool
    requires { i < 16 }
    ensures { result ≡ may_go off out crews (has bar) i }
{
    out < off && 0 < crews && !sets::has(bar, i)
}

// The node with place i OUT, where that is tried.
fn child_out(costs: &Costs, shut: u32, i: usize, y: StateNode) -> Option<StateNode>
    requires { CostsInRange costs.now × (i < 16) × (y.score ≤ MOST_SCORE) }
    ensures { ChildIs (may_go (get_or costs.now.offs i 0) (get_or costs.now.outs i 0) y.crews (has y.bar) i) y.need (y.crews - 1)
        (y.score + get_or costs.now.outs i 0) (barred (places_of costs.now shut) i (has y.bar)) result }
{
    let out = costs.outs[i];
    if !may_go(costs.offs[i], out, y.crews, y.bar, i) {
        return None;
    }
    Some(StateNode {
        need: y.need,
        crews: y.crews - 1,
        bar: sets::union(y.bar, costs.clashes[i]),
        score: y.score + out,
        out: sets::with(y.out, i),
    })
}

// What comes of place i in a state: the node, where it is worth a look.
pub fn after(costs: &Costs, shut: u32, i: usize, st: PlaceState, y: StateNode) -> Option<StateNode>
    requires { CostsInRange costs.now × (i < 16) × (y.score ≤ MOST_SCORE) }
    ensures { ChildComes (places_of costs.now shut) i y st result }
{
    match st {
        PlaceState::On => Some(child_on(costs, i, y)),
        PlaceState::Off => child_off(costs, i, y),
        PlaceState::Out => child_out(costs, shut, i, y),
    }
}

// ---- the order of the states

// The three states by what they cost.
fn ordered(on: u64, off: u64, out: u64) -> [PlaceState; 3]
    ensures { EachState result }
{
    match (on <= off, on <= out, off <= out) {
        (true, _, true) => [PlaceState::On, PlaceState::Off, PlaceState::Out],
        (true, true, false) => [PlaceState::On, PlaceState::Out, PlaceState::Off],
        (true, false, false) => [PlaceState::Out, PlaceState::On, PlaceState::Off],
        (false, true, _) => [PlaceState::Off, PlaceState::On, PlaceState::Out],
        (false, false, true) => [PlaceState::Off, PlaceState::Out, PlaceState::On],
        (false, false, false) => [PlaceState::Out, PlaceState::Off, PlaceState::On],
    }
}

// The states of place i by what they cost at the rate and the price.
pub fn order_at(costs: &Costs, rate: u64, price: u64, i: usize) -> [PlaceState; 3]
    requires { CostsInRange costs.now × (rate ≤ MOST_COST) × (price ≤ MOST_COST) × (i < 16) }
    ensures { EachState result }
{
    let lost = rate * costs.caps[i];
    ordered(
        costs.ons[i],
        costs.offs[i] + lost,
        costs.outs[i] + price + lost,
    )
}

// ---- a node before its highest place is decided

// It is cut where the places left cannot suffice, or cannot get below the best; worth its lower bound where the fuel is spent, and its score where no
// place is left.
pub fn look(
    costs: &Costs,
    sums: &Sums,
    a: Advice,
    k: usize,
    y: StateNode,
    low: StateFound,
) -> Looked
    requires { SearchTables costs.now sums.now a × (k ≤ 16) × (y.crews ≤ 16) × (low.best ≤ MOST_SCORE) }
    ensures { NodeSeen (places_of costs.now a.shut) k y low result }
{
    if low.best <= y.score {
        return Looked::Done(low);
    }
    if sums.rooms[k] < y.need {
        return Looked::Done(low);
    }
    let weighed = bounds::weighed(costs, sums, a, k, y);
    if low.best <= weighed {
        return Looked::Done(low);
    }
    let counted = bounds::count_bound(costs, sums, a, k, y);
    if low.best <= counted {
        return Looked::Done(low);
    }
    if low.fuel == 0 {
        return Looked::Done(StateFound {
            best: weighed.max(counted),
            ..low
        });
    }
    if k == 0 {
        return Looked::Done(StateFound {
            best: y.score,
            out: y.out,
            ..low
        });
    }
    Looked::Open(StateFound {
        fuel: low.fuel - 1,
        ..low
    })
}
