// What the rounds spend on weeks: which weeks are hard, and the nodes that searches over three states have needed in all rounds so far.
ghost use Rattle.std.specs.Prelude.{◌≡◌, length, ◌<◌, ◌≤◌};
ghost use Rattle.tables.specs.Tables.{TABLES, HARD_WEEKS, Begins};

use model::Layout;
use relaxation::{Effort, MOST_SETS, WeekChoice};
use tables::{HARD_WEEKS, TABLES};

// The nodes of a week in a round.
const ROUND_NODES: u64 = 65536;
// The nodes that the rounds may use for each week of the file before weeks are cut short.
const POOL_NODES: u64 = 262144;
// The nodes of a week from then on.
const LAST_NODES: u64 = 500;

// The weeks that are hard, and the nodes used.
#[derive(Clone, Copy)]
pub struct Work {
    pub hard: [bool; 52],
    pub nodes: u64,
}

// What may be spent on week t: no sets where it is hard, and little where much has been spent.
pub fn effort_of(l: Layout, work: &Work, t: usize) -> Effort
    requires { (l.weeks ≤ 52) × (t < 52) }
{
    if POOL_NODES * l.weeks as u64 <= work.nodes {
        return Effort {
            sets: 0,
            nodes: LAST_NODES,
        };
    }
    Effort {
        sets: if work.hard[t] { 0 } else { MOST_SETS },
        nodes: ROUND_NODES,
    }
}

// Notes what week t needed of what was allowed: it is hard from then on where sets were allowed and none is left to look at.
pub fn note_work(work: &mut Work, t: usize, allowed: Effort, choice: WeekChoice)
    requires { t < 52 }
{
    work.nodes = work.nodes.saturating_add(choice.nodes);
    if 0 < allowed.sets && choice.sets == 0 {
        work.hard[t] = true;
    }
}

// A table with the hard weeks noted.
pub fn with_hard_weeks(priced: [u32; TABLES], work: &Work) -> [u32; TABLES]
    requires { length priced ≡ TABLES }
    ensures { Begins HARD_WEEKS priced result }
{
    let mut tables = priced;
    for t in 0..52 {
        tables[HARD_WEEKS + t] = work.hard[t] as u32;
    }
    tables
}
