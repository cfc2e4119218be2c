// The block of an answer in lent words: status, cost, starts, run numbers, mark; what a status has none of is 0.
#![tactic(auto)]

ghost use Rattle.std.specs.Prelude.{◌≡◌, ◌+◌, ◌<◌, ◌≤◌, length};
ghost use Rattle.sums.specs.Logic.{if};
ghost use Rattle.sums.specs.Range.{list_to};
ghost use Rattle.sums.specs.Table.{entry};
ghost use Rattle.lent.specs.Splice.{spliced};
ghost use Rattle.model.specs.Nogood.{MOST_LIMIT};
ghost use Rattle.shape.specs.Shape.{block_size};
ghost use Rattle.block.specs.Block.{status_number, status_of, mark_length, block_word, Placed, put_at};

use model::Layout;
use search::Reply;
use shape::{COST_PLACE, START_PLACE};
use state::Walked;

// What a reply says: a plan, none, a best before the mark, or a mark alone.
#[derive(Clone, Copy, Debug, PartialEq, Eq)]
enum Status {
    Optimal,
    Infeasible,
    Incumbent,
    Unknown,
}

impl Status {
    // Its number in document 01.
    #[tactic(auto, unfolding(crate::specs::Block::status_number))]
    fn number(self) -> u32
        ensures { result ≡ status_number self }
    {
        match self {
            Status::Optimal => 1,
            Status::Infeasible => 2,
            Status::Incumbent => 3,
            Status::Unknown => 4,
        }
    }
}

// The status of a reply, by whether there is a schedule and how the walk ended.
#[tactic(auto, unfolding(crate::specs::Block::status_of))]
fn status_of(found: bool, w: Walked) -> Status
    ensures { result ≡ status_of found w }
{
    match (w, found) {
        (Walked::Dead(_), true) => Status::Optimal,
        (Walked::Dead(_), false) => Status::Infeasible,
        (Walked::Spent(_), true) => Status::Incumbent,
        (Walked::Spent(_), false) => Status::Unknown,
    }
}

// How many starts the mark has. No Option: a mark that there is not has as many words as one without starts.
#[tactic(auto, unfolding(crate::specs::Block::mark_length))]
fn mark_length(w: Walked) -> usize
    ensures { result ≡ mark_length w }
{
    match w {
        Walked::Dead(_) => 0,
        Walked::Spent(m) => m,
    }
}

// A start of an array as a word.
#[tactic(auto, unfolding(sums::specs::Table::entry))]
fn start_word(xs: [u8; 16], i: usize) -> u32
    requires { i < 16 }
    ensures { result ≡ entry xs i }
{
    xs[i] as u32
}

// The word where there is a schedule, else 0.
fn where_found(found: bool, word: u32) -> u32
    ensures { result ≡ if found word 0 }
{
    if found { word } else { 0 }
}

// Word q of a reply's block.
fn word(l: Layout, reply: Reply, q: usize) -> u32
    requires units_bound { (l.units ≤ 16) × (l.weeks ≤ 52) }
    requires q_bound { q < block_size l.units l.weeks }
    requires limit_bound { reply.state.limit.0 ≤ MOST_LIMIT }
    ensures { result ≡ block_word l.units l.weeks reply q }
{
    let st = reply.state;
    let runs_at = shape::runs_at(l.units);
    let mark_at = shape::mark_at(l.units, l.weeks);
    if q < COST_PLACE {
        status_of(st.found, reply.walked).number()
    } else if q < START_PLACE {
        where_found(st.found, st.limit.0 as u32)
    } else if q < runs_at {
        where_found(st.found, start_word(st.best, q - START_PLACE))
    } else if q < mark_at {
        where_found(st.found, reply.runs[q - runs_at])
    } else if q - mark_at < mark_length(reply.walked) {
        start_word(st.mark, q - mark_at)
    } else {
        0
    }
}

// Writes a reply's block from a place on; the words before and behind it are kept.
fn put_at(answers: &mut [u32], at: usize, l: Layout, reply: Reply)
    requires units_bound { (l.units ≤ 16) × (l.weeks ≤ 52) × (at + block_size l.units l.weeks ≤ length answers.old) }
    requires limit_bound { reply.state.limit.0 ≤ MOST_LIMIT }
    ensures { answers.new ≡
        spliced at (list_to (block_size l.units l.weeks) (block_word l.units l.weeks reply)) answers.old }
{
    let size = shape::block_size(l.units, l.weeks);
    // By index: what is claimed of a word is claimed at its place among the lent words.
    for q in 0..size {
        answers[at + q] = word(l, reply, q);
    }
}

// Writes the block of ask k, from 0, behind those of the asks before it.
pub fn put(answers: &mut [u32], l: Layout, k: usize, reply: Reply)
    requires placed { Placed l k (length answers.old) }
    requires limit_bound { reply.state.limit.0 ≤ MOST_LIMIT }
    ensures { answers.new ≡ put_at l k reply answers.old }
{
    let size = shape::block_size(l.units, l.weeks);
    put_at(answers, k * size, l, reply);
}
