// Tables of both implementations, and whether they are alike.
use crate::fail::Fail;
use reference::lines::Line;
use std::alloc::{AllocError, Global};
use table::rows::{Entry, Row};

// The most rows that a search uses.
const ROWS: usize = 65_535;

// Two lists of one length: each side is lent a slice of rows of its own kind.
#[derive(Drop)]
pub struct Tables {
    pub rows: Vec<Row>,
    pub lines: Vec<Line>,
}

// Whether a row and a line hold the same box. This is all that knows how a row has its sides.
fn same_box(row: &Row, line: &Line) -> bool {
    row.spans.iter().zip(&line.sides).all(|(span, side)| (span.first, span.level)
        == (side.first, side.level))
}

// A table of the package in which all rows wait.
pub fn fresh_rows(heap: Global) -> Result<Vec<Row>, AllocError> {
    Ok(vec![in heap; Row::whole(Entry::Waiting); ROWS]?)
}

impl Tables {
    // Tables in which all rows wait.
    pub fn new(heap: Global) -> Result<Tables, AllocError> {
        Ok(Tables {
            rows: fresh_rows(heap)?,
            lines: vec![in heap; Line::whole(None); ROWS]?,
        })
    }

    // Whether both tables hold the same boxes.
    pub fn same_boxes(&self) -> Result<(), Fail> {
        let mut pairs = self.rows.iter().zip(&self.lines);
        if self.rows.len() == self.lines.len() && pairs.all(|(row, line)| same_box(row, line)) {
            Ok(())
        } else {
            Err(Fail::Other)
        }
    }
}
