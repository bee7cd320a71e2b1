// Beginning a search.
ghost use Rattle.std.specs.Prelude.{◌≡◌, ◌≤◌, length, Ok, Err, slice_set};
ghost use Rattle.search.specs.Calls.{Begins, Begun};
ghost use Rattle.search.specs.Runs.{EveryRun};
ghost use Rattle.table.specs.Rows.{whole_grid};
ghost use Rattle.table.specs.declared.rows.Entry.TheVariants.{Answered};

use crate::states::Rest;
use order::answer::Answer;
use refusal::Refusal;
use table::rows::{Entry, Row};
use table::shape::Shape;

// Writes row 0, the whole grid with the answer for its middle cell, and gives the search at rest.
fn start(shape: Shape, table: &mut [Row], answer: Answer) -> Rest
    requires { 1 ≤ length table.old }
    ensures begun { Begun shape.n shape.finest result }
    ensures written { table.new ≡ slice_set table.old 0 (whole_grid (Answered answer)) }
{
    table[0] = Row::whole(Entry::Answered(answer));
    Rest {
        shape,
        boxes: 1,
        rounds: 0,
    }
}

// Begins a search of n directions and a finest level, with the answer for the grid's middle cell.
// Whatever calls follow on the search that it gives, the promises of `EveryRun` hold.
pub fn begin(n: u8, finest: u8, table: &mut [Row], answer: Answer) -> Result<Rest, Refusal>
    ensures outcome { Begins n finest table.old answer result table.new }
    ensures runs { elim result [ Ok rest ↦ EveryRun rest table.new answer | Err _ ↦ Unit {0} ] }
{
    let shape = Shape::new(n, finest)?;
    if table.is_empty() {
        return Err(Refusal::NoRow);
    }
    if !answer.is_allowed() {
        return Err(Refusal::ReadingOutOfRange);
    }
    Ok(start(shape, table, answer))
}
