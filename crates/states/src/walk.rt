// The search, depth first from the highest place down.
ghost use Rattle.std.specs.Prelude.{◌≡◌, ◌+◌, ◌-◌, ◌*◌, ◌<◌, ◌≤◌};
ghost use Rattle.sums.specs.NumSet.{has};
ghost use Rattle.states.specs.Choices.{ChoiceFloor, StateHeld};
ghost use Rattle.states.specs.SearchTables.{SearchTables, places_of, MOST_SCORE};

use crate::{Advice, Costs, Looked, PlaceState, StateFound, StateNode, Sums, nodes};

// The best so far, or less, after all choices with place i in a state.
#[cycle(branch_turn_walk)]
fn branch(
    costs: &Costs,
    sums: &Sums,
    a: Advice,
    i: usize,
    st: PlaceState,
    y: StateNode,
    low: StateFound,
) -> StateFound
    requires { SearchTables costs.now sums.now a × (i < 16) × (y.crews ≤ 16) × (y.score ≤ MOST_SCORE) × (low.best ≤ MOST_SCORE) }
    ensures answer { StateHeld (places_of costs.now a.shut) i y.need y.crews (has y.bar) y.score result.best st }
    ensures less { result.best ≤ low.best }
{
    match nodes::after(costs, a.shut, i, st, y) {
        Some(node) => walk(costs, sums, a, i, node, low),
        None => low,
    }
}

// The best so far, or less, after all choices for the places below k, of which there are some.
#[cycle(branch_turn_walk)]
fn turn(
    costs: &Costs,
    sums: &Sums,
    a: Advice,
    k: usize,
    y: StateNode,
    low: StateFound,
) -> StateFound
    requires { SearchTables costs.now sums.now a × (0 < k) × (k ≤ 16) × (y.crews ≤ 16) × (y.score ≤ MOST_SCORE) × (low.best ≤ MOST_SCORE) }
    ensures answer { ChoiceFloor (places_of costs.now a.shut) k y.need y.crews (has y.bar) y.score result.best }
    ensures less { result.best ≤ low.best }
{
    let top = k - 1;
    let mut least = low;
    for st in nodes::order_at(costs, a.rate, a.price, top) {
        least = branch(costs, sums, a, top, st, y, least);
    }
    least
}

// The best so far, or less, after all choices for the places below k.
#[cycle(branch_turn_walk)]
pub fn walk(
    costs: &Costs,
    sums: &Sums,
    a: Advice,
    k: usize,
    y: StateNode,
    low: StateFound,
) -> StateFound
    requires { SearchTables costs.now sums.now a × (k ≤ 16) × (y.crews ≤ 16) × (low.best ≤ MOST_SCORE) }
    ensures answer { ChoiceFloor (places_of costs.now a.shut) k y.need y.crews (has y.bar) y.score result.best }
    ensures less { result.best ≤ low.best }
{
    match nodes::look(costs, sums, a, k, y, low) {
        Looked::Done(found) => found,
        Looked::Open(found) => turn(costs, sums, a, k, y, found),
    }
}
