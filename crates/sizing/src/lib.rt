// The sizing figure of a file, a bound on the number of places of its walks (document 01, "A run of asks"). Start at `sizing`.
#![tactic(auto)]

ghost use Rattle.std.specs.Prelude.{◌≤◌, ◌<◌, min, ◌≡◌};
ghost use Rattle.sums.specs.Sum.{sum_to};
ghost use Rattle.model.specs.Words.{VALUES};
ghost use Rattle.model.specs.Prefix.{next_power, MOST_FIGURE};
ghost use Rattle.model.specs.Sizing.{sizing_of};
ghost use Rattle.decoder.specs.Answers.{figure_of};

use decoder::Refusal;

// 2^28 - 1: the greatest sizing figure.
pub const MOST_FIGURE: usize = 268435455;

// The smaller of the greatest figure and w + w^2 + .. + w^u. What lies above is cut off at each step, and what is cut off stays so.
fn space_bound(w: usize, u: usize) -> usize
    requires { w < VALUES }
    ensures { result ≡ min MOST_FIGURE (sum_to u (next_power w)) }
{
    let mut power = 1;
    let mut sum = 0;
    // The counter is for the invariant alone, which has to name it.
    for j in 0..u {
        power = MOST_FIGURE.min(power * w);
        sum = MOST_FIGURE.min(sum + power);
    }
    sum
}

// The sizing figure of a file, or the file's refusal (D98).
pub fn sizing(words: &[u32]) -> Result<usize, Refusal>
    ensures { figure_of result ≡ sizing_of words.now }
{
    decoder::read(words)?;
    let w = words::value_at(words, 0);
    let u = words::value_at(words, 1);
    Ok(space_bound(w, u))
}
