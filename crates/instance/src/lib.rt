// A file's words seen as the problem they mean: where its sections begin, money and mass. `file` has the accepted file with a method for each
// figure: start at `File`. Weeks, units and pairs count from 0.
#![tactic(auto)]

ghost use Rattle.std.specs.Prelude.{◌≡◌, ◌||◌, ℕ, ◌+◌, ◌-◌, ◌*◌, ◌<◌, ◌≤◌, ◌^◌, length};
ghost use Rattle.model.specs.Words.{VALUES, kind_at, value_at, layout_for, off_words, layout_of};
ghost use Rattle.instance.specs.Tables.{table_for, row_of};

pub use file::File;
use model::Layout;
use std::ops::{Add, AddAssign};

mod file;

// Euros: what a cost is, and what sums over costs take and return.
#[derive(Clone, Copy, PartialEq, Eq, PartialOrd, Ord)]
pub struct Euro(pub u64);

// Kilograms of dry matter: what a demand or a capacity is, and what sums over outputs take and return. A type of its own beside Euro, and not one
// with a parameter, as document 01 names the form.
#[derive(Clone, Copy, PartialEq, Eq, PartialOrd, Ord)]
pub struct Kilo(pub u64);

impl Add for Euro {
    type Output = Euro;

    ghost can_add = { λ a b. a.0 + b.0 < 2 ^ 64 };

    ghost add_gives = { λ a b r. r.0 ≡ a.0 + b.0 };

    fn add(self, other: Euro) -> Euro {
        Euro(self.0 + other.0)
    }
}

impl AddAssign for Euro {
    ghost can_add_assign = { λ a b. a.0 + b.0 < 2 ^ 64 };

    ghost add_assign_gives = { λ a b r. r.0 ≡ a.0 + b.0 };

    fn add_assign(&mut self, other: Euro) {
        self.0 += other.0;
    }
}

impl Euro {
    // What is left when another amount is taken off, 0 where that is more.
    pub fn saturating_sub(self, other: Euro) -> Euro
        ensures { result.0 ≡ self.0 - other.0 }
    {
        Euro(self.0.saturating_sub(other.0))
    }
}

impl Add for Kilo {
    type Output = Kilo;

    ghost can_add = { λ a b. a.0 + b.0 < 2 ^ 64 };

    ghost add_gives = { λ a b r. r.0 ≡ a.0 + b.0 };

    fn add(self, other: Kilo) -> Kilo {
        Kilo(self.0 + other.0)
    }
}

impl AddAssign for Kilo {
    ghost can_add_assign = { λ a b. a.0 + b.0 < 2 ^ 64 };

    ghost add_assign_gives = { λ a b r. r.0 ≡ a.0 + b.0 };

    fn add_assign(&mut self, other: Kilo) {
        self.0 += other.0;
    }
}

impl Kilo {
    // What is left when another weight is taken off, 0 where that is more.
    pub fn saturating_sub(self, other: Kilo) -> Kilo
        ensures { result.0 ≡ self.0 - other.0 }
    {
        Kilo(self.0.saturating_sub(other.0))
    }
}

// The kind of the word at a place, 0 past the end.
fn kind_at(words: &[u32], q: usize) -> usize
    ensures { result ≡ kind_at words.now q }
{
    if q < words.len() {
        return words::kind_of(words[q]);
    }
    0
}

// How many OFF costs stand at a place: as many as cells where the word there is of kind 0, else none.
fn off_words(words: &[u32], q: usize, cells: usize) -> usize
    ensures { (result ≡ off_words words.now q cells) × (result ≤ cells) }
{
    if kind_at(words, q) == 0 {
        return cells;
    }
    0
}

// The layout of w weeks and u units, with n OFF costs.
fn layout_for(w: usize, u: usize, n: usize) -> Layout
    requires { (w < VALUES) × (u < VALUES) × (n < 2 ^ 57) }
    ensures { result ≡ layout_for w u n }
{
    let triples = 3 + w;
    let maints = triples + 3 * u;
    let cells = w * u;
    let runnings = maints + cells;
    let offs = runnings + cells;
    let pairs = offs + n;
    Layout {
        weeks: w,
        units: u,
        triples,
        maints,
        runnings,
        offs,
        pairs,
    }
}

// The number of a table's cells.
fn cells_of(w: usize, u: usize) -> usize
    requires { (w < VALUES) × (u < VALUES) }
    ensures { (result ≡ w * u) × (result < 2 ^ 57) }
{
    w * u
}

// The layout that the first two words announce, and the word after the running costs, of any words.
pub fn layout_of(words: &[u32]) -> Layout
    ensures { result ≡ layout_of words.now }
{
    let w = words::value_at(words, 0);
    let u = words::value_at(words, 1);
    let bare = layout_for(w, u, 0);
    let n = off_words(words, bare.offs, cells_of(w, u));
    layout_for(w, u, n)
}

// The place of week t and unit i in a table of costs.
pub fn cell_place(l: Layout, t: usize, i: usize) -> usize
    requires units_bound { l.weeks * l.units ≤ 832 }
    requires t_lt_weeks { (t < l.weeks) × (i < l.units) }
    ensures { (result ≡ t * l.units + i) × (result < l.weeks * l.units) }
{
    t * l.units + i
}

// The week's row of the table that a cell's state names, a word for each of u units: maintenance costs for MAINT, running costs for ON. OFF
// has `off_cost`, since a file may have no table of those, and its row is not to be read.
pub fn cost_row<'a>(
    maints: &'a [u32],
    runnings: &'a [u32],
    u: usize,
    t: usize,
    state: u8,
) -> &'a [u32]
    requires t_bound { (t < 52) × (u ≤ 16) }
    requires u_in_bounds { (t * u + u ≤ length maints.now) × (t * u + u ≤ length runnings.now) }
    ensures { result.now ≡ row_of u t (table_for state maints.now runnings.now) }
{
    let from = t * u;
    if state == 2 {
        return &maints[from..from + u];
    }
    &runnings[from..from + u]
}
