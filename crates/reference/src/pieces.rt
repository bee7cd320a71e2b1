// The boxes of a search, and how the lines of a table hold them.
use super::digits::{Digits, interval};
use super::lines::{Answer, Line, Side, WIDTH};
use super::stop::{Cause, Stop};
use std::alloc::{AllocError, Global};

// A box: its sides, one for each direction of the search, and its answer.
#[derive(Drop)]
pub struct Piece {
    pub sides: Vec<Digits>,
    pub answer: Answer,
}

impl Piece {
    // The box that a line holds, if it is one of a search.
    pub fn read(heap: Global, line: &Line, n: usize, finest: usize) -> Result<Piece, Stop> {
        let answer = line.said().ok_or(Cause::ForeignTable)?;
        let mut sides = Vec::with_capacity(heap, WIDTH)?;
        for side in line.sides {
            sides.push(interval(heap, side)?.ok_or(Cause::ForeignTable)?)?;
        }
        if sides.iter().skip(n).any(|side: &Digits| !side.is_empty()) {
            return Err(Stop::Refused(Cause::ForeignTable));
        }
        sides.truncate(n);
        let piece = Piece { sides, answer };
        if !piece.is_allowed(finest) {
            return Err(Stop::Refused(Cause::ForeignTable));
        }
        Ok(piece)
    }

    // Whether its levels are those of a box of a search.
    fn is_allowed(&self, finest: usize) -> bool {
        let greatest = self.sides.iter().map(|side| side.len()).max().unwrap_or(0);
        greatest <= finest && greatest <= self.level().saturating_add(1)
    }

    // Its level, which is that of its longest sides.
    fn level(&self) -> usize {
        self.sides.iter().map(|side| side.len()).min().unwrap_or(0)
    }

    // The reading of its answer, if it is one.
    pub fn reading(&self) -> Option<i32> {
        self.answer.reading()
    }

    // The sum of its levels.
    pub fn rank(&self) -> usize {
        self.sides
            .iter()
            .fold(0usize, |rank, side| rank.saturating_add(side.len()))
    }

    // The directions of its long sides, rising.
    pub fn long_sides(&self, heap: Global) -> Result<Vec<usize>, AllocError> {
        let level = self.level();
        self.sides
            .iter()
            .enumerate()
            .filter(|(_, side)| side.len() == level)
            .map(|(direction, _)| direction)
            .collect(heap)
    }
}

impl Line {
    // Writes sides, the whole direction where there is none, and leaves the answer.
    pub fn write_sides<D: Copy + Into<u32>>(&mut self, sides: &[Vec<D>]) {
        self.sides = [Side::WHOLE; WIDTH];
        for (place, side) in self.sides.iter_mut().zip(sides) {
            *place = Side::from(side);
        }
    }
}
