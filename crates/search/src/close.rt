// Closing a round.
ghost use Rattle.std.specs.Prelude.{Ok, Decides};
ghost use Rattle.search.specs.Calls.{Closes, ClosesIn, CutAll, NoneWaits, OwnRound};

use crate::sides::TakenBox;
use crate::states::{Rest, Round};
use refusal::Refusal;
use table::rows::Row;

// Finds all taken boxes, then cuts each along its long sides, the box of the lowest rank first.
pub(crate) fn cut_taken(round: &Round, table: &mut [Row])
    requires { OwnRound round.now table.old }
    ensures { CutAll round.now table.old table.new }
{
    let firsts = round.shape.firsts(&table[..round.boxes]);
    let mut next = round.boxes;
    for rank in round.chosen.members() {
        if let Some(taken) = firsts[rank] {
            let cut = TakenBox {
                shape: round.shape,
                row: taken.row,
                rank,
                base: next,
            };
            cut.cut(table);
            next += 2 * round.shape.long_sides(rank);
        }
    }
}

impl Round {
    // As `close`, where the table is known to be the round's own and no point waits.
    pub(crate) fn close_answered(self, table: &mut [Row]) -> Rest
        requires own { OwnRound self table.old }
        requires answered { NoneWaits self table.old }
        ensures { ClosesIn self table.old (Ok result) table.new }
    {
        cut_taken(&self, table);
        Rest {
            shape: self.shape,
            boxes: self.boxes + self.points,
            rounds: self.rounds + 1,
        }
    }

    // Cuts the taken boxes, and gives the search at rest.
    pub fn close(self, table: &mut [Row]) -> Result<Rest, (Refusal, Round)>
        ensures { Closes self table.old result table.new }
    {
        let waits = self.look(table).map(|looked| looked.waiting().is_some());
        match waits {
            Err(why) => Err((why, self)),
            Ok(true) => Err((Refusal::PointWaits, self)),
            Ok(false) => Ok(self.close_answered(table)),
        }
    }
}
