// The shape of an answer's block for u units and w weeks (document 01, "A run of asks"): a status, a cost, a start for each unit, a run number for
// each week, a start of the mark for each unit. Places count from the block's first word.
#![tactic(auto)]

ghost use Rattle.std.specs.Prelude.{◌≤◌, ◌≡◌};
ghost use Rattle.shape.specs.Shape.{runs_at, mark_at, block_size};

// The place of the cost.
pub const COST_PLACE: usize = 1;

// The place of the first start.
pub const START_PLACE: usize = 2;

// Where the run numbers begin.
pub fn runs_at(u: usize) -> usize
    requires { u ≤ 16 }
    ensures { (result ≡ runs_at u) × (result ≤ 18) }
{
    START_PLACE + u
}

// Where the mark begins.
pub fn mark_at(u: usize, w: usize) -> usize
    requires { (u ≤ 16) × (w ≤ 52) }
    ensures { (result ≡ mark_at u w) × (result ≤ 70) }
{
    runs_at(u) + w
}

// How many words a block has.
pub fn block_size(u: usize, w: usize) -> usize
    requires { (u ≤ 16) × (w ≤ 52) }
    ensures { (result ≡ block_size u w) × (result ≤ 86) }
{
    mark_at(u, w) + u
}
