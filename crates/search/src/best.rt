// The best box of a search at rest.
ghost use Rattle.search.specs.Calls.{BestOf, Bests, OwnRest};

use crate::states::Rest;
use order::answer::Answer;
use order::least::least;
use refusal::Refusal;
use table::rows::Row;

impl Rest {
    // As `best`, where the table is known to be the search's own.
    pub(crate) fn best_in(&self, table: &[Row]) -> Option<(usize, i32)>
        requires { OwnRest self.now table.now }
        ensures { BestOf self.now table.now result }
    {
        let boxes = &table[..self.boxes];
        let first = least(boxes)?;
        match boxes[first].entry.answer() {
            Answer::Reading(x) => Some((first, x)),
            Answer::NotFeasible => None,
        }
    }

    // The row and the reading of the first box, or none where no box has a reading.
    pub fn best(&self, table: &[Row]) -> Result<Option<(usize, i32)>, Refusal>
        ensures { Bests self.now table.now result }
    {
        if !self.shape.owns(table, self.boxes) {
            return Err(Refusal::NotOwnTable);
        }
        Ok(self.best_in(table))
    }
}
