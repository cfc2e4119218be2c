// An accepted file: its words with their layout, and a method for each figure. A figure is an equation with the file's problem and says its range;
// tables and rows are parts of the words. Weeks, units and pairs count from 0.
ghost use Rattle.std.specs.Prelude.{◌≡◌, ◌||◌, ℕ, ◌+◌, ◌*◌, ◌<◌, ◌≤◌};
ghost use Rattle.sums.specs.NumSet.{has, only_in};
ghost use Rattle.model.specs.Words.{value_at};
ghost use Rattle.model.specs.Verdict.{accepted};
ghost use Rattle.model.specs.Reading.{read_of};
ghost use Rattle.model.specs.Rules.{output};
ghost use Rattle.model.specs.Commitment.{off_cost};
ghost use Rattle.model.specs.Pairs.{joins, apart};
ghost use Rattle.instance.specs.Filed.{Filed};
ghost use Rattle.instance.specs.Tables.{maints_of, runnings_of};

use crate::{Euro, Kilo, cell_place, layout_of};
use model::Layout;

// The words of a file that a reader accepted, and where its sections begin.
#[derive(Clone, Copy)]
pub struct File<'a> {
    pub words: &'a [u32],
    pub layout: Layout,
    pub ghost filed: { Filed words.now layout },
}

impl<'a> File<'a> {
    ghost use Rattle.instance.specs.File.{problem};

    // The file of words that a reader accepted.
    pub fn new(words: &'a [u32]) -> File<'a>
        requires { read_of words.now ≡ accepted }
        ensures { result.words.now ≡ words.now }
    {
        File {
            words,
            layout: layout_of(words),
        }
    }

    // M: how many overhauls may go on in one week.
    pub fn crews(&self) -> usize
        ensures { (result ≡ (problem self.now).crews) × (1 ≤ result) × (result ≤ 16) }
    {
        words::value_of(self.words[2])
    }

    // D: what week t wants.
    pub fn demand(&self, t: usize) -> Kilo
        requires { t < self.now.layout.weeks }
        ensures { (result.0 ≡ (problem self.now).demand t) × (result.0 ≤ 16000000) }
    {
        Kilo(words::value_of(self.words[3 + t]) as u64)
    }

    // k: what unit i gives in week t; a file has one figure for all weeks, so t is not read.
    pub fn capacity(&self, t: usize, i: usize) -> Kilo
        requires { i < self.now.layout.units }
        ensures { (result.0 ≡ (problem self.now).capacity t i) × (result.0 ≤ 1000000) }
    {
        let q = self.layout.triples + 3 * i;
        Kilo(words::value_of(self.words[q]) as u64)
    }

    // e: the earliest start of unit i, from 1.
    pub fn earliest(&self, i: usize) -> usize
        requires { i < self.now.layout.units }
        ensures { (result ≡ (problem self.now).earliest i) × (1 ≤ result) × (result ≤ self.now.layout.weeks) }
    {
        let q = self.layout.triples + 3 * i + 1;
        words::value_of(self.words[q]) / 64
    }

    // l: its latest start.
    pub fn latest(&self, i: usize) -> usize
        requires { i < self.now.layout.units }
        ensures { (result ≡ (problem self.now).latest i) × (1 ≤ result) × (result ≤ self.now.layout.weeks) }
    {
        let q = self.layout.triples + 3 * i + 1;
        words::value_of(self.words[q]) % 64
    }

    // d: the weeks that its overhaul takes.
    pub fn duration(&self, i: usize) -> usize
        requires { i < self.now.layout.units }
        ensures { (result ≡ (problem self.now).duration i) × (1 ≤ result) × (result ≤ self.now.layout.weeks) }
    {
        let q = self.layout.triples + 3 * i + 2;
        words::value_of(self.words[q])
    }

    // m: what maintaining unit i costs in week t.
    pub fn maint_cost(&self, t: usize, i: usize) -> Euro
        requires { (t < self.now.layout.weeks) × (i < self.now.layout.units) }
        ensures { (result.0 ≡ (problem self.now).maint t i) × (result.0 ≤ 250000) }
    {
        let q = self.layout.maints + cell_place(self.layout, t, i);
        Euro(words::value_of(self.words[q]) as u64)
    }

    // c: what running unit i costs in week t.
    pub fn running_cost(&self, t: usize, i: usize) -> Euro
        requires { (t < self.now.layout.weeks) × (i < self.now.layout.units) }
        ensures { (result.0 ≡ (problem self.now).running t i) × (result.0 ≤ 250000) }
    {
        let q = self.layout.runnings + cell_place(self.layout, t, i);
        Euro(words::value_of(self.words[q]) as u64)
    }

    // What keeping unit i warm costs where it is OFF in week t: 0 where the file has no OFF costs (D89).
    pub fn off_cost(&self, t: usize, i: usize) -> Euro
        requires { (t < self.now.layout.weeks) × (i < self.now.layout.units) }
        ensures { (result.0 ≡ (problem self.now).off t i) × (result.0 ≤ 250000) }
    {
        if self.layout.pairs <= self.layout.offs {
            return Euro(0);
        }
        let q = self.layout.offs + cell_place(self.layout, t, i);
        Euro(words::value_of(self.words[q]) as u64)
    }

    // What unit i adds to the output of a run in week t.
    fn output_part(&self, t: usize, run: u32, i: usize) -> Kilo
        requires { i < self.now.layout.units }
        ensures { (result.0 ≡ only_in (has run) ((problem self.now).capacity t) i) × (result.0 ≤ 1000000) }
    {
        if sets::has(run, i) {
            return self.capacity(t, i);
        }
        Kilo(0)
    }

    // What a run gives in week t.
    pub fn run_output(&self, t: usize, run: u32) -> Kilo
        ensures { (result.0 ≡ output (problem self.now) t (has run)) × (result.0 ≤ 16000000) }
    {
        let units = self.layout.units;
        let mut sum = Kilo(0);
        for i in 0..units {
            sum += self.output_part(t, run, i);
        }
        sum
    }

    // What unit i would cost OFF in week t, where it is out.
    fn off_part(&self, t: usize, out: u32, i: usize) -> Euro
        requires { (t < self.now.layout.weeks) × (i < self.now.layout.units) }
        ensures { (result.0 ≡ only_in (has out) ((problem self.now).off t) i) × (result.0 ≤ 250000) }
    {
        if sets::has(out, i) {
            return self.off_cost(t, i);
        }
        Euro(0)
    }

    // What the units out would cost OFF in week t.
    pub fn off_sum(&self, t: usize, out: u32) -> Euro
        requires { t < self.now.layout.weeks }
        ensures { (result.0 ≡ off_cost (problem self.now) t (has out)) × (result.0 ≤ 4000000) }
    {
        let units = self.layout.units;
        let mut sum = Euro(0);
        for i in 0..units {
            sum += self.off_part(t, out, i);
        }
        sum
    }

    // The table of maintenance costs. It is a part of the words, and lives as long as they do.
    pub fn maint_table(&self) -> &'a [u32]
        ensures { result.now ≡ maints_of self.now.layout self.now.words.now }
    {
        let from = self.layout.maints;
        let to = self.layout.runnings;
        &self.words[from..to]
    }

    // The table of running costs.
    pub fn running_table(&self) -> &'a [u32]
        ensures { result.now ≡ runnings_of self.now.layout self.now.words.now }
    {
        let from = self.layout.runnings;
        let to = self.layout.offs;
        &self.words[from..to]
    }

    // N: how many excluded pairs there are.
    pub fn pairs(&self) -> usize
        ensures { (result ≡ (problem self.now).pairs) × (result ≤ 120) }
    {
        self.words.len() - (self.layout.pairs + 1)
    }

    // The value of pair n's word: its lower unit times 32 and its higher unit, both from 1.
    fn pair_value(&self, n: usize) -> usize
        requires { n < (problem self.now).pairs }
        ensures { result ≡ value_at self.now.words.now (self.now.layout.pairs + n) }
    {
        let q = self.layout.pairs + n;
        words::value_of(self.words[q])
    }

    // The lower unit of pair n.
    pub fn pair_a(&self, n: usize) -> usize
        requires { n < (problem self.now).pairs }
        ensures { (result ≡ (problem self.now).pair_a n) × (result < self.now.layout.units) }
    {
        self.pair_value(n) / 32 - 1
    }

    // The higher unit of pair n.
    pub fn pair_b(&self, n: usize) -> usize
        requires { n < (problem self.now).pairs }
        ensures { (result ≡ (problem self.now).pair_b n) × (result < self.now.layout.units) }
    {
        self.pair_value(n) % 32 - 1
    }

    // What pair n adds to the partners of unit i found so far.
    fn partner_added(&self, i: usize, n: usize, found: u32) -> u32
        requires { n < (problem self.now).pairs }
        ensures { (j : ℕ) → has result j ≡ (has found j || joins (problem self.now) i j n) }
    {
        let a = self.pair_a(n);
        let b = self.pair_b(n);
        if a == i {
            return sets::with(found, b);
        }
        if b == i {
            return sets::with(found, a);
        }
        found
    }

    // The units that form an excluded pair with unit i, as a set (D37).
    pub fn partners(&self, i: usize) -> u32
        ensures { (j : ℕ) → has result j ≡ apart (problem self.now) i j }
    {
        let count = self.pairs();
        let mut found = 0;
        for n in 0..count {
            found = self.partner_added(i, n, found);
        }
        found
    }
}
