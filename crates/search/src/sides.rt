// The long sides of a taken box, in the order of cutting.
ghost use Rattle.std.specs.Prelude.{◌≡◌, ◌+◌, ◌-◌, ◌%◌, ◌<◌, length, take};
ghost use Rattle.order.specs.Answers.{Numbered, numbered_before};
ghost use Rattle.search.specs.Cutting.{Gathered, InCutOrder, Taking, side_key, with_row};
ghost use Rattle.std.proofs.Common.{rules};

use order::answer::Answer;
use order::arrange::arrange;
use order::ordered::Ordered;
use order::records::Direction;
use table::rows::{Row, SIDES};
use table::shape::Shape;

// A long side of a taken box: its direction, and the row of its low point; the high point's row is the next.
#[derive(Clone, Copy)]
pub(crate) struct LongSide {
    pub direction: Direction,
    pub row: usize,
}

// A taken box: the shape of its search, its row, its rank, and the row of its first point.
// How it stands in the table is a condition and no field: the table is written while it is cut.
#[derive(Clone, Copy)]
pub(crate) struct TakenBox {
    pub shape: Shape,
    pub row: usize,
    pub rank: usize,
    pub base: usize,
}

impl Ordered for LongSide {
    ghost Key = { Numbered };

    ghost key = { side_key };

    ghost before = { numbered_before };

    ghost irreflexive = { Prim.search rules };

    ghost transitive = { Prim.search rules };

    ghost total = { Prim.search rules };

    fn precedes(&self, other: &LongSide) -> bool {
        self.direction.precedes(&other.direction)
    }
}

// A long side whose points have the rows `row` and `row + 1`.
fn side(table: &[Row], number: usize, row: usize) -> LongSide
    requires { row + 1 < length table.now }
    ensures { result ≡ with_row table.now number row }
{
    let low = table[row].entry.answer();
    let high = table[row + 1].entry.answer();
    LongSide {
        direction: Direction::new(number, low, high),
        row,
    }
}

impl TakenBox {
    // Its long sides by rising direction, in an array since this crate has no heap; what stands past them is of no account.
    fn long_sides(&self, table: &[Row]) -> [LongSide; SIDES]
        requires { Taking self.now.shape.n self.now.rank table.now self.now.row self.now.base }
        ensures { Gathered self.now.shape.n table.now self.now.row self.now.base result }
    {
        let spans = table[self.row].spans;
        let n = self.shape.n as usize;
        let level = self.rank / n;
        let none = Direction {
            w: Answer::NotFeasible,
            number: 0,
        };
        let mut sides = [LongSide {
            direction: none,
            row: 0,
        }; SIDES];
        let mut count = 0;
        // A slice of the spans would have to be shown long enough: a table's row does not say that it has six.
        for d in 0..n {
            if usize::from(spans[d].level) == level {
                sides[count] = side(table, d, self.base + 2 * count);
                count += 1;
            }
        }
        sides
    }

    // Its long sides in the order of cutting.
    pub fn cut_order(&self, table: &[Row]) -> [LongSide; SIDES]
        requires { Taking self.now.shape.n self.now.rank table.now self.now.row self.now.base }
        ensures { InCutOrder self.now.shape.n table.now self.now.row self.now.base (take (self.now.shape.n - self.now.rank % self.now.shape.n) result) }
    {
        let mut sides = self.long_sides(table);
        arrange(&mut sides[..self.shape.long_sides(self.rank)]);
        sides
    }
}
