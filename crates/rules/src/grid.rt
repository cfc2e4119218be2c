// A grid with the file that it is one of.
ghost use Rattle.std.specs.Prelude.{◌≡◌, ◌*◌, ◌<◌, ◌≤◌, length};
ghost use Rattle.model.specs.Grid.{cell};

use instance::File;
use model::Layout;

// The byte of unit i in week t among those of a layout, whatever file it is of.
pub fn state(grid: &[u8], l: Layout, t: usize, i: usize) -> u8
    requires grid_len { (length grid.now ≡ l.weeks * l.units) × (l.weeks * l.units ≤ 832) }
    requires t_lt_weeks { (t < l.weeks) × (i < l.units) }
    ensures { result ≡ cell l.units grid.now t i }
{
    let q = instance::cell_place(l, t, i);
    grid[q]
}

// A grid of an accepted file: a byte for each week and unit, in the order of costs. 0 is OFF, 1 ON, 2 MAINT; any other byte is none of them.
#[derive(Clone, Copy)]
pub struct Grid<'a> {
    pub file: File<'a>,
    pub cells: &'a [u8],
    pub ghost full: { length cells.now ≡ file.layout.weeks * file.layout.units },
}

impl<'a> Grid<'a> {
    ghost use Rattle.rules.specs.Gridded.{states};

    // The state of unit i in week t.
    pub fn state(&self, t: usize, i: usize) -> u8
        requires { (t < self.now.file.layout.weeks) × (i < self.now.file.layout.units) }
        ensures { result ≡ states self.now t i }
    {
        state(self.cells, self.file.layout, t, i)
    }
}
