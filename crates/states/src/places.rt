// The table of costs of a week: what each unit gives and what its states cost, and its partners.
ghost use Rattle.std.specs.Prelude.{◌≡◌, ◌*◌, ◌<◌, ◌≤◌};
ghost use Rattle.sums.specs.NumSet.{has};
ghost use Rattle.instance.specs.File.{problem};
ghost use Rattle.tables.specs.Tables.{price_in, Prices};
ghost use Rattle.states.specs.SearchTables.{MOST_CAP, MOST_COST};
ghost use Rattle.states.specs.Weeks.{place_cap, place_on, place_off, place_out, PlacesTo};

use crate::{Costs, SCALE};
use instance::File;
use tables::TABLES;

// What unit i gives where it is ON: nothing where it is out.
fn place_cap(file: &File, t: usize, out: u32, i: usize) -> u64
    requires { (i < file.now.layout.units) }
    ensures { (result ≡ place_cap (problem file.now) t (has out) i) × (result ≤ MOST_CAP) }
{
    if sets::has(out, i) {
        return 0;
    }
    file.capacity(t, i).0
}

// What unit i costs ON, with its price; OFF where it is out.
fn place_on(file: &File, tables: &[u32; TABLES], t: usize, out: u32, i: usize) -> u64
    requires { (t < file.now.layout.weeks) × (i < file.now.layout.units) × Prices tables.now }
    ensures { (result ≡ place_on (problem file.now) (price_in tables.now) t (has out) i) × (result ≤ MOST_COST) }
{
    if sets::has(out, i) {
        return file.off_cost(t, i).0 * SCALE;
    }
    let price = tables::price(tables, t, i);
    (file.running_cost(t, i) + price).0 * SCALE
}

// What unit i costs OFF, with its price unless it is out.
fn place_off(file: &File, tables: &[u32; TABLES], t: usize, out: u32, i: usize) -> u64
    requires { (t < file.now.layout.weeks) × (i < file.now.layout.units) × Prices tables.now }
    ensures { (result ≡ place_off (problem file.now) (price_in tables.now) t (has out) i) × (result ≤ MOST_COST) }
{
    let off = file.off_cost(t, i);
    if sets::has(out, i) {
        return off.0 * SCALE;
    }
    let price = tables::price(tables, t, i);
    (off + price).0 * SCALE
}

// What unit i costs OUT.
fn place_out(file: &File, t: usize, i: usize) -> u64
    requires { (t < file.now.layout.weeks) × (i < file.now.layout.units) }
    ensures { (result ≡ place_out (problem file.now) t i) × (result ≤ MOST_COST) }
{
    file.off_cost(t, i).0 * SCALE
}

// The costs of a week with these units out.
pub fn week_costs(file: &File, tables: &[u32; TABLES], t: usize, out: u32) -> Costs
    requires { (t < file.now.layout.weeks) × Prices tables.now }
    ensures { PlacesTo (problem file.now) tables.now t (has out) file.now.layout.units result }
{
    let mut costs = Costs {
        caps: [0; 16],
        ons: [0; 16],
        offs: [0; 16],
        outs: [0; 16],
        clashes: [0; 16],
    };
    for i in 0..file.layout.units {
        costs.caps[i] = place_cap(file, t, out, i);
        costs.ons[i] = place_on(file, tables, t, out, i);
        costs.offs[i] = place_off(file, tables, t, out, i);
        costs.outs[i] = place_out(file, t, i);
        costs.clashes[i] = tables::partners(tables, i);
    }
    costs
}
