// Cutting boxes along their long sides.
use super::digits::{Digits, Third};
use super::lines::{Answer, Line, Table};
use super::pieces::Piece;
use std::alloc::AllocError;

// A direction of a box that is cut, with the earlier of its two answers, and the row of its low point.
// The row of the high point follows. Strokes are sorted in this order.
#[derive(Clone, Copy, PartialEq, Eq, PartialOrd, Ord)]
struct Stroke {
    w: Answer,
    direction: usize,
    low: usize,
}

// Goes from a side to one of its thirds.
fn enter(sides: &mut Vec<Digits>, direction: usize, third: Third) -> Result<(), AllocError> {
    if let Some(side) = sides.get_mut(direction) {
        side.push(third)?;
    }
    Ok(())
}

// Goes back.
fn leave(sides: &mut Vec<Digits>, direction: usize) {
    if let Some(side) = sides.get_mut(direction) {
        let _ = side.pop();
    }
}

impl Table<'_> {
    // The answer of a row.
    fn answer(&self, row: usize) -> Answer {
        self.lines
            .get(row)
            .and_then(Line::said)
            .unwrap_or(Answer::NotFeasible)
    }

    // The strokes of a box in their order; the lines of its points start at a row.
    fn strokes(&self, piece: &Piece, from: usize) -> Result<Vec<Stroke>, AllocError> {
        let long = piece.long_sides(self.heap)?;
        let mut all: Vec<Stroke> = long
            .iter()
            .zip((from..usize::MAX).step_by(2))
            .map(|(direction, low)| Stroke {
                w: self.answer(low).min(self.answer(low.saturating_add(1))),
                direction: *direction,
                low,
            })
            .collect(self.heap)?;
        all.sort()?;
        Ok(all)
    }

    // Puts sides into a line.
    fn put(&mut self, row: usize, sides: &[Digits]) {
        if let Some(line) = self.lines.get_mut(row) {
            line.write_sides(sides);
        }
    }

    // Splits what is left of a box, and goes to the middle third.
    fn split(&mut self, sides: &mut Vec<Digits>, by: Stroke) -> Result<(), AllocError> {
        for (third, row) in [
            (Third::Low, by.low),
            (Third::High, by.low.saturating_add(1)),
        ] {
            enter(sides, by.direction, third)?;
            self.put(row, sides);
            leave(sides, by.direction);
        }
        enter(sides, by.direction, Third::Middle)
    }

    // Cuts a box, and gives the number of its points.
    fn cut_one(&mut self, piece: &mut Piece, row: usize, from: usize) -> Result<usize, AllocError> {
        let strokes = self.strokes(piece, from)?;
        for by in &strokes {
            self.split(&mut piece.sides, *by)?;
        }
        self.put(row, &piece.sides);
        Ok(strokes.len().saturating_mul(2))
    }

    // Cuts the boxes of some rows; the lines of their points start at a row.
    pub fn cut(
        &mut self,
        pieces: &mut [Piece],
        rows: &[usize],
        from: usize,
    ) -> Result<(), AllocError> {
        let mut from = from;
        for row in rows {
            if let Some(piece) = pieces.get_mut(*row) {
                let points = self.cut_one(piece, *row, from)?;
                from = from.saturating_add(points);
            }
        }
        Ok(())
    }
}
