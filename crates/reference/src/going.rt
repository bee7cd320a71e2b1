// A round of a search: its points, their answers, and its close.
use super::digits::{Digits, Third, middle_cell, part};
use super::front::{Ticket, firsts};
use super::lines::{Answer, Line, Mark, Rows, Table};
use super::pieces::Piece;
use super::still::Still;
use super::stop::{Cause, Stop};
use std::alloc::{AllocError, Global};

#[derive(Drop)]
pub struct Going {
    pub before: Still,
    pub chosen: Vec<usize>,
    pub points: usize,
}

// A point: a row whose box is cut, a direction, and the third in which it lies.
#[derive(Clone, Copy)]
struct Point {
    row: usize,
    direction: usize,
    third: Third,
}

// The boxes, and the rows of those that the round cuts, by rising rank.
#[derive(Drop)]
struct View {
    pieces: Vec<Piece>,
    taken: Vec<usize>,
}

// The row of the first box of a rank.
fn row_of(firsts: &[Ticket], rank: usize) -> Result<usize, Cause> {
    firsts
        .iter()
        .find(|ticket| ticket.rank == rank)
        .map(|ticket| ticket.row)
        .ok_or(Cause::ForeignTable)
}

// Adds the points of a box.
fn add_points(
    heap: Global,
    all: &mut Vec<Point>,
    piece: &Piece,
    row: usize,
) -> Result<(), AllocError> {
    for direction in &piece.long_sides(heap)? {
        for third in [Third::Low, Third::High] {
            all.push(Point {
                row,
                direction: *direction,
                third,
            })?;
        }
    }
    Ok(())
}

impl Point {
    // Its coordinate in a direction, on that side of its box.
    fn coordinate(self, heap: Global, d: usize, side: &Digits) -> Result<u32, AllocError> {
        if d == self.direction {
            Ok(middle_cell(&part(heap, side, self.third)?))
        } else {
            Ok(middle_cell(side))
        }
    }

    // Its cell, in its box.
    fn cell(self, heap: Global, piece: &Piece) -> Result<Vec<u32>, AllocError> {
        piece
            .sides
            .iter()
            .enumerate()
            .map(|(d, side)| self.coordinate(heap, d, side))
            .try_collect(heap)
    }
}

impl View {
    // The points of the round, in their order.
    fn points(&self, heap: Global) -> Result<Vec<Point>, AllocError> {
        let mut all = Vec::new(heap);
        for row in &self.taken {
            if let Some(piece) = self.pieces.get(*row) {
                add_points(heap, &mut all, piece, *row)?;
            }
        }
        Ok(all)
    }
}

impl Going {
    // The boxes, if the table is the search's own.
    fn look(&self, table: Rows<'_>) -> Result<View, Stop> {
        let pieces = self.before.own(table)?;
        if table.lines.len() < self.row(self.points) {
            return Err(Stop::Refused(Cause::ForeignTable));
        }
        let firsts = firsts(table.heap, &pieces, self.before.frame.end())?;
        let taken = self
            .chosen
            .iter()
            .map(|rank| -> Result<usize, Stop> { Ok(row_of(&firsts, *rank)?) })
            .try_collect(table.heap)?;
        Ok(View { pieces, taken })
    }

    // The row of a point.
    pub fn row(&self, point: usize) -> usize {
        self.before.boxes.saturating_add(point)
    }

    // Whether a point waits.
    fn waits(&self, lines: &[Line], point: usize) -> bool {
        lines.get(self.row(point)).and_then(Line::said).is_none()
    }

    // Writes the cell of a point.
    pub fn locate(&self, point: usize, table: Rows<'_>, cells: &mut [u32]) -> Result<(), Stop> {
        let view = self.look(table)?;
        let points = view.points(table.heap)?;
        let found = points.get(point).copied().ok_or(Cause::NoSuchPoint)?;
        if cells.len() < self.before.frame.directions() {
            return Err(Stop::Refused(Cause::ShortList));
        }
        if let Some(piece) = view.pieces.get(found.row) {
            let cell = found.cell(table.heap, piece)?;
            if let Some(first) = cells.get_mut(..cell.len()) {
                first.copy_from_slice(&cell);
            }
        }
        Ok(())
    }

    // The points that wait.
    pub fn waiting(&self, table: Rows<'_>) -> Result<Vec<usize>, Stop> {
        let _ = self.look(table)?;
        let all = (0..self.points)
            .filter(|point| self.waits(table.lines, *point))
            .collect(table.heap)?;
        Ok(all)
    }

    // Answers a point.
    pub fn answer(&self, point: usize, answer: Answer, table: &mut Table<'_>) -> Result<(), Stop> {
        let answer = answer.allowed()?;
        let _ = self.look(table.rows())?;
        if point >= self.points {
            return Err(Stop::Refused(Cause::NoSuchPoint));
        }
        if !self.waits(table.lines, point) {
            return Err(Stop::Refused(Cause::Answered));
        }
        self.note(point, answer, table.lines);
        Ok(())
    }

    // Writes the answer of a point.
    pub fn note(&self, point: usize, answer: Answer, lines: &mut [Line]) {
        if let Some(line) = lines.get_mut(self.row(point)) {
            line.mark = Mark::from(Some(answer));
        }
    }

    // Closes the round.
    pub fn close(&self, table: &mut Table<'_>) -> Result<Still, Stop> {
        let View { mut pieces, taken } = self.look(table.rows())?;
        if (0..self.points).any(|point| self.waits(table.lines, point)) {
            return Err(Stop::Refused(Cause::PointWaits));
        }
        table.cut(&mut pieces, &taken, self.before.boxes)?;
        Ok(Still {
            boxes: self.row(self.points),
            rounds: self.before.rounds.saturating_add(1),
            ..self.before
        })
    }
}
