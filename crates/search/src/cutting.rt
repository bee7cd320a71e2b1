// Cutting one taken box.
ghost use Rattle.std.specs.Prelude.{◌≡◌, ◌<◌, length, slice_set};
ghost use Rattle.grid.specs.Grid.{IsInterval};
ghost use Rattle.table.specs.Rows.{first_of, level_of, row_at};
ghost use Rattle.search.specs.Points.{Six};
ghost use Rattle.search.specs.Cutting.{CutAlong, CutBox, Cuttable, Sides, Taking, ThirdsIn, with_side};

use crate::sides::{LongSide, TakenBox};
use grid::interval::Interval;
use grid::interval::cut::Thirds;
use table::rows::{Entry, Row, Span};

// The interval of a box in a direction.
pub(crate) fn interval_in(row: &Row, d: usize) -> Interval
    requires { (d < 6) × (IsInterval (first_of row.now d) (level_of row.now d)) }
    ensures { (result.first ≡ first_of row.now d) × (result.level ≡ level_of row.now d) }
{
    match row.spans[d].interval() {
        Some(interval) => interval,
        None => unreachable(),
    }
}

// The thirds of side `d` of a row.
fn thirds_of(row: &Row, d: usize) -> Thirds
    requires { Cuttable row.now d }
    ensures { ThirdsIn row.now d result }
{
    interval_in(row, d).cut()
}

// The row with an interval for its side `d`, and with an entry.
fn with_side(row: Row, d: usize, side: Interval, entry: Entry) -> Row
    requires { d < 6 }
    ensures { result ≡ with_side row d side entry }
{
    let mut part = row;
    part.spans[d] = Span::from(side);
    part.entry = entry;
    part
}

// Row `k` receives a part of a box, and keeps its entry.
fn give(table: &mut [Row], k: usize, from: Row, d: usize, side: Interval)
    requires { (k < length table.old) × (d < 6) }
    ensures { table.new ≡ slice_set table.old k (with_side from d side (row_at table.old k).entry) }
{
    table[k] = with_side(from, d, side, table[k].entry);
}

// Row `j` becomes what is left of its box: like every row it has six spans.
fn keep(table: &mut [Row], j: usize, left: Row)
    requires { j < length table.old }
    ensures written { table.new ≡ slice_set table.old j left }
    ensures six { Six left }
{
    table[j] = left;
}

// Cuts row `j` along some of its sides, in their order: each cut gives the outer thirds of what is left to the rows of its points.
fn cut_along(table: &mut [Row], j: usize, sides: &[LongSide])
    requires { Sides table.old j sides.now }
    ensures { CutAlong table.old j sides.now table.new }
{
    let mut left = table[j];
    for side in sides {
        let row = side.row;
        let d = side.direction.number;
        let thirds = thirds_of(&left, d);
        give(table, row, left, d, thirds.low);
        give(table, row + 1, left, d, thirds.high);
        left = with_side(left, d, thirds.middle, left.entry);
    }
    keep(table, j, left);
}

impl TakenBox {
    // Cuts it along its long sides.
    pub fn cut(&self, table: &mut [Row])
        requires { Taking self.now.shape.n self.now.rank table.old self.now.row self.now.base }
        ensures { CutBox self.now.shape.n table.old self.now.row self.now.base table.new }
    {
        let sides = self.cut_order(table);
        cut_along(table, self.row, &sides[..self.shape.long_sides(self.rank)]);
    }
}
