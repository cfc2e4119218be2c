// What walks ask for: the keys of values in the memo, and what may be spent on one.
ghost use Rattle.std.specs.Prelude.{◌≡◌, ◌<◌};
ghost use Rattle.sets.specs.Sets.{SETS};
ghost use Rattle.relaxation.specs.Relaxed.{value_key};

use crate::{Effort, MOST_SETS};
use memo::OTHERS;
use sets::SETS;
use tables::TABLES;

// The nodes of a week in a walk.
const WALK_NODES: u64 = 16000;

// The key of what week t is worth with these units out.
pub fn value_key(t: usize, out: u32) -> u32
    requires { (t < 52) × (out < SETS) }
    ensures { result ≡ value_key t out }
{
    let week = t as u32;
    week * SETS + out + 1 + OTHERS
}

// The nodes of a week with nobody out: its value is taken once a run, and every bound begins with it.
const ROOT_NODES: u64 = 65536;

// The nodes that may be spent with these units out.
fn nodes_for(out: u32) -> u64 {
    if out == 0 {
        return ROOT_NODES;
    }
    WALK_NODES
}

// What may be spent on week t in a walk, with these units out: no sets where the week is hard.
pub fn walk_effort(tables: &[u32; TABLES], t: usize, out: u32) -> Effort
    requires { t < 52 }
{
    if tables::hard_week(tables, t) {
        return Effort {
            sets: 0,
            nodes: nodes_for(out),
        };
    }
    Effort {
        sets: MOST_SETS,
        nodes: nodes_for(out),
    }
}
