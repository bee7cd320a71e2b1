// Settings of the two dials, as cells, and the sides of boxes.
ghost use Rattle.std.specs.Prelude.{◌≡◌, Ok, Err};
ghost use Rattle.tune.specs.Sides.{Within};

use crate::settings::DIALS;
use grid::interval::Interval;
use refusal::Refusal;
use std::fmt;
use table::rows::{Row, Span};

// A cell in each direction.
#[derive(Clone, Copy)]
pub struct Cell(pub [u32; DIALS]);

// The interval of a span; a row with a span that is none is no box of a search.
fn side_of(span: Span) -> Result<Interval, Refusal>
    ensures { elim result [ Ok side ↦ side.level ≡ span.level | Err _ ↦ Unit {0} ] }
{
    span.interval().ok_or(Refusal::NotOwnTable)
}

impl Cell {
    // The middle cell of a box.
    pub fn middle_of(row: &Row) -> Result<Cell, Refusal> {
        let mut cell = [0; DIALS];
        for (middle, span) in cell.iter_mut().zip(&row.spans) {
            *middle = side_of(*span)?.middle();
        }
        Ok(Cell(cell))
    }
}

// The most cells along a side of a box.
pub fn longest_side_of(row: &Row) -> Result<u32, Refusal>
    ensures { elim result [ Ok most ↦ Within row.now most | Err _ ↦ Unit {0} ] }
{
    let first = side_of(row.spans[0])?.length();
    let second = side_of(row.spans[1])?.length();
    Ok(first.max(second))
}

impl fmt::Display for Cell {
    fn fmt<W: fmt::Write>(&self, f: &mut fmt::Formatter<W>) -> fmt::Result {
        let [x, y] = self.0;
        write!(f, "({x:>10}, {y:>10})")
    }
}
