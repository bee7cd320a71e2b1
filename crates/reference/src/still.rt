// A search at rest: beginning it, opening a round, and its best box.
use super::frame::Frame;
use super::front::Front;
use super::going::Going;
use super::lines::{Answer, Line, Rows, Table};
use super::pieces::Piece;
use super::policies::Policy;
use super::stop::{Cause, Stop};

// The most rows that are used.
const MOST_ROWS: usize = 65_535;

#[derive(Clone, Copy, Debug, PartialEq, Eq)]
pub struct Still {
    pub frame: Frame,
    pub boxes: usize,
    pub rounds: usize,
}

// The row and the reading of the best box, the first where some are equal, if any has a reading.
fn best_of(pieces: &[Piece]) -> Option<(usize, i32)> {
    pieces
        .iter()
        .enumerate()
        .filter_map(|(row, piece)| piece.reading().map(|x| (row, x)))
        .min_by_key(|(_, x)| *x)
}

impl Still {
    // Begins a search.
    pub fn begin(frame: Frame, answer: Answer, lines: &mut [Line]) -> Result<Still, Cause> {
        let frame = frame.allowed()?;
        let line = lines.first_mut().ok_or(Cause::NoRow)?;
        *line = Line::whole(Some(answer.allowed()?));
        Ok(Still {
            frame,
            boxes: 1,
            rounds: 0,
        })
    }

    // The boxes, if the table is the search's own.
    pub fn own(&self, table: Rows<'_>) -> Result<Vec<Piece>, Stop> {
        let n = self.frame.directions();
        let finest = usize::from(self.frame.finest);
        table
            .lines
            .get(..self.boxes)
            .ok_or(Cause::ForeignTable)?
            .iter()
            .map(|line| Piece::read(table.heap, line, n, finest))
            .try_collect(table.heap)
    }

    // Opens a round.
    pub fn open(&self, policy: Policy, table: &mut Table<'_>) -> Result<Going, Stop> {
        let pieces = self.own(table.rows())?;
        let n = self.frame.directions();
        let front = Front::new(table.heap, &pieces, n, self.frame.end())?;
        if front.firsts.is_empty() {
            return Err(Stop::Refused(Cause::AllFinished));
        }
        let chosen = policy.choose(table.heap, &front)?;
        let points = self.frame.points(&chosen);
        let all = self.boxes.saturating_add(points);
        if all > MOST_ROWS {
            return Err(Stop::Refused(Cause::NoRoom));
        }
        let new = table.lines.get_mut(self.boxes..all).ok_or(Cause::NoRoom)?;
        new.fill(Line::whole(None));
        Ok(Going {
            before: *self,
            chosen,
            points,
        })
    }

    // The row and the reading of the best box, if any has a reading.
    pub fn best(&self, table: Rows<'_>) -> Result<Option<(usize, i32)>, Stop> {
        Ok(best_of(&self.own(table)?))
    }
}
