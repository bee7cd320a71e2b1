// Whether rows are the boxes of a search.
ghost use Rattle.std.specs.Prelude.{ℕ, ◌+◌, ◌<◌, ◌≤◌, length, Decides};
ghost use Rattle.table.specs.Boxes.{InDirection, IsBox, Own};
ghost use Rattle.table.specs.Rows.{level_of};

use crate::rows::{Row, SIDES};
use crate::shape::Shape;

impl Shape {
    // Whether a level is at most one above that of each of the first n directions of a row.
    fn is_near(&self, row: &Row, level: u8) -> bool
        ensures { Decides result ((e : ℕ) → e < self.now.n → level ≤ level_of row.now e + 1) }
    {
        let top = u16::from(level);
        row.spans
            .iter()
            .take(usize::from(self.n))
            .all(|span| top <= u16::from(span.level) + 1)
    }

    // Whether a row has in direction d what a box has there.
    // That d is below 6 is the bound of an index: a type for it would be made at each loop and unmade at each index.
    fn is_box_in(&self, row: &Row, d: usize) -> bool
        requires { d < 6 }
        ensures { Decides result (InDirection self.now.n self.now.finest row.now d) }
    {
        let span = row.spans[d];
        if span.interval().is_none() {
            return false;
        }
        if d < usize::from(self.n) {
            span.level <= self.finest && self.is_near(row, span.level)
        } else {
            span.level == 0
        }
    }

    // Whether a row has in each direction what a box has there.
    fn has_form(&self, row: &Row) -> bool
        ensures { Decides result ((d : ℕ) → d < 6 → InDirection self.now.n self.now.finest row.now d) }
    {
        (0..SIDES).all(|d| self.is_box_in(row, d))
    }

    // Whether a row is a box with its answer.
    pub fn is_box(&self, row: &Row) -> bool
        ensures { Decides result (IsBox self.now.n self.now.finest row.now) }
    {
        !row.entry.waits() && self.has_form(row)
    }

    // Whether the first rows of a table, as many as there are boxes, are boxes with their answers.
    pub fn owns(&self, table: &[Row], boxes: usize) -> bool
        ensures { Decides result (Own self.now.n self.now.finest boxes table.now) }
    {
        boxes <= table.len() && table[..boxes].iter().all(|row| self.is_box(row))
    }
}
