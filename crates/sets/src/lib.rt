// Sets of units as the bits of a word: unit i is in the set where bit i is 1.
#![tactic(auto)]

ghost use Rattle.std.specs.Prelude.{◌≡◌, ◌&&◌, ◌||◌, ℕ, ◌<◌};
ghost use Rattle.sums.specs.NumSet.{has, with, without};

// 2^16: the number of a set of 16 units lies below it.
pub const SETS: u32 = 65536;

// Whether the set has unit i.
pub fn has(set: u32, i: usize) -> bool
    requires { i < 32 }
    ensures { result ≡ has set i }
{
    (set >> i) % 2 == 1
}

// The set with unit i added.
pub fn with(set: u32, i: usize) -> u32
    requires { i < 32 }
    ensures { (k : ℕ) → has result k ≡ with (has set) i k }
{
    set | (1 << i)
}

// The set without unit i.
pub fn without(set: u32, i: usize) -> u32
    requires { i < 32 }
    ensures { (k : ℕ) → has result k ≡ without (has set) i k }
{
    let unit = 1 << i;
    // Once bit i is 1 in both, `^` clears it whether the set had it or not.
    (set | unit) ^ unit
}

// The units of either set.
pub fn union(a: u32, b: u32) -> u32
    ensures { (k : ℕ) → has result k ≡ (has a k || has b k) }
{
    a | b
}

// The units that both sets have.
pub fn intersection(a: u32, b: u32) -> u32
    ensures { (k : ℕ) → has result k ≡ (has a k && has b k) }
{
    a & b
}
