// The cutting of a box: its row, its rank, and the order of its long sides.
use crate::settings::DIALS;
use order::answer::Answer;
use order::arrange::arrange;
use order::records::Direction;
use std::fmt;
use table::rows::Row;

// A box that a round cuts, with its long sides in the order of cutting: one or both.
#[derive(Clone, Copy)]
pub struct Cut {
    pub row: usize,
    pub rank: usize,
    pub first: Direction,
    pub second: Option<Direction>,
}

// The answer of a row; none counts as "not feasible".
fn answer_of(table: &[Row], row: usize) -> Answer {
    table
        .get(row)
        .map_or(Answer::NotFeasible, |row| row.entry.answer())
}

// A direction whose low point has the row `base`, and its high point the next.
fn direction(table: &[Row], number: usize, base: usize) -> Direction {
    let high = base.saturating_add(1);
    Direction::new(number, answer_of(table, base), answer_of(table, high))
}

// Both directions, the one with the earlier answer first.
fn both(table: &[Row], base: usize) -> [Direction; DIALS] {
    let next = base.saturating_add(2);
    let mut order = [direction(table, 0, base), direction(table, 1, next)];
    arrange(&mut order);
    order
}

impl Cut {
    // The cutting of a box of a rank, where its points have the rows from `base` on.
    pub fn new(table: &[Row], row: usize, rank: usize, base: usize) -> Cut {
        if rank % DIALS == 0 {
            let [first, second] = both(table, base);
            return Cut {
                row,
                rank,
                first,
                second: Some(second),
            };
        }
        let second_is_longer = table
            .get(row)
            .is_some_and(|row| row.spans[0].level > row.spans[1].level);
        Cut {
            row,
            rank,
            first: direction(table, usize::from(second_is_longer), base),
            second: None,
        }
    }

    // How many points it has.
    pub fn points(&self) -> usize {
        if self.second.is_some() { 4 } else { 2 }
    }
}

impl fmt::Display for Cut {
    fn fmt<W: fmt::Write>(&self, f: &mut fmt::Formatter<W>) -> fmt::Result {
        let row = self.row;
        let rank = self.rank;
        let number = self.first.number;
        let w = self.first.w;
        write!(f, "row {row:>2}, rank {rank}: direction {number} (w {w})")?;
        if let Some(second) = self.second {
            let number = second.number;
            let w = second.w;
            write!(f, ", then direction {number} (w {w})")?;
        }
        Ok(())
    }
}
