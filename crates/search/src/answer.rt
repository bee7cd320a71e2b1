// The points of a round that wait, and their answers.
ghost use Rattle.std.specs.Prelude.{◌≡◌, ℕ, ◌+◌, ◌<◌, T, length, slice_set};
ghost use Rattle.order.specs.Answers.{allowed};
ghost use Rattle.search.specs.Calls.{Answers, AnswersIn, FindsWaiting, OwnRound, WaitingPoint, Waits, with_answer};
ghost use Rattle.table.specs.Rows.{row_at};

use crate::look::Looked;
use crate::states::Round;
use order::answer::Answer;
use refusal::Refusal;
use table::rows::{Entry, Row};

// The row of a point receives its answer.
pub(crate) fn note(row: usize, answer: Answer, table: &mut [Row])
    requires { row < length table.old }
    ensures { table.new ≡ slice_set table.old row (with_answer (row_at table.old row) answer) }
{
    table[row].entry = Entry::Answered(answer);
}

impl Looked<'_> {
    // Some point that waits, or none where none waits.
    pub(crate) fn waiting(&self) -> Option<usize>
        ensures { WaitingPoint self.now.round.now self.now.table.now result }
    {
        let round = self.round;
        self.table[round.boxes..round.boxes + round.points]
            .iter()
            .position(|row| row.entry.waits())
    }
}

impl Round {
    // As `answer`, where the table is known to be the round's own and the answer to be allowed.
    pub(crate) fn answer_in(
        &self,
        point: usize,
        answer: Answer,
        table: &mut [Row],
    ) -> Result<(), Refusal>
        requires own { OwnRound self.now table.old }
        requires reads { T (allowed answer) }
        ensures { AnswersIn self.now table.old point answer result table.new }
    {
        if point >= self.points {
            return Err(Refusal::NoSuchPoint);
        }
        let row = self.boxes + point;
        if !table[row].entry.waits() {
            return Err(Refusal::AlreadyAnswered);
        }
        note(row, answer, table);
        Ok(())
    }

    // Some point that waits, or none where none waits.
    pub fn waiting(&self, table: &[Row]) -> Result<Option<usize>, Refusal>
        ensures { FindsWaiting self.now table.now result }
    {
        Ok(self.look(table)?.waiting())
    }

    // Replaces the waiting mark of a point by an answer.
    pub fn answer(&self, point: usize, answer: Answer, table: &mut [Row]) -> Result<(), Refusal>
        ensures { Answers self.now table.old point answer result table.new }
    {
        if !answer.is_allowed() {
            return Err(Refusal::ReadingOutOfRange);
        }
        let _ = self.look(table)?;
        self.answer_in(point, answer, table)
    }
}
