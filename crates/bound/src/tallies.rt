// Row words: the tally of the units out in a week as one word.
ghost use Rattle.std.specs.Prelude.{◌≡◌, ◌<◌};
ghost use Rattle.instance.specs.File.{problem};
ghost use Rattle.commitment.specs.Tally.{Tallies};
ghost use Rattle.bound.specs.Rows.{tally_of, word_of, Packs, RowJoins};

use commitment::Tally;
use instance::{Euro, File};
use sets::SETS;

// In a row word the number of the set of units out lies below this.
pub const ROW_SETS: u64 = SETS as u64;
// Above it stands how many they are, below this.
const COUNTS: u64 = 32;

// The tally that a row word holds: who is out, how many, and above both what they cost.
pub fn tally(word: u64) -> Tally
    ensures { result ≡ tally_of word }
{
    Tally {
        out: (word % ROW_SETS) as u32,
        count: (word / ROW_SETS % COUNTS) as usize,
        cost: Euro(word / ROW_SETS / COUNTS),
    }
}

// A tally as a row word.
fn packed(y: Tally) -> u64
    requires { Packs y }
    ensures { result ≡ word_of y }
{
    (y.cost.0 * COUNTS + y.count as u64) * ROW_SETS + y.out as u64
}

// The word of week t with unit i out as well.
pub fn word_with(file: &File, t: usize, i: usize, word: u64) -> u64
    requires { (t < file.now.layout.weeks) × (i < file.now.layout.units) × Tallies (problem file.now) t (tally_of word) }
    ensures { Tallies (problem file.now) t (tally_of result) × RowJoins word i result }
{
    let y = tally(word);
    packed(y.with_unit(file, t, i))
}
