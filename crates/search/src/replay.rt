// Replaying a record: the search and the table of the run that it tells.
ghost use Rattle.std.specs.Prelude.{◌≡◌, ℕ, ◌<◌, List, length};
ghost use Rattle.record.specs.Reading.{Unreads};
ghost use Rattle.table.specs.declared.rows.Row.{Row as RowValue};
ghost use Rattle.search.specs.Once.{One};
ghost use Rattle.search.specs.Replays.{KeepsLaw, Replays, Stops, at};

use crate::replay::due::Due;
use crate::replay::refused_at::RefusedAt;
use crate::replay::turn::{in_turn, turn};
use crate::states::Rest;
use record::item::Unread;
use record::read::read;
use refusal::Refusal;
use table::rows::Row;

pub mod due;
pub mod refused_at;
mod rounds;
mod turn;

// Why a record is refused where no item can be read.
fn unread(due: &Due, why: Unread) -> Refusal
    ensures { (table : List RowValue) (here : ℕ) (bytes : List ℕ) → 0 < length bytes → Unreads bytes why → Stops due.now table here bytes (at result here) }
{
    match why {
        Unread::MarkCut => Refusal::RecordCutShort,
        Unread::Unknown => Refusal::UnknownMark,
        Unread::BodyCut(mark) => if in_turn(due, mark) {
            Refusal::RecordCutShort
        } else {
            Refusal::MarkOutOfTurn
        },
    }
}

// The search to which the run leads that a record tells, or why the record tells none.
// A refused record leaves the table as its accepted calls left it.
pub fn replay(bytes: &[u8], table: &mut [Row]) -> Result<Rest, RefusedAt>
    ensures outcome { Replays table.old bytes.now result table.new }
    ensures only { One (Replays table.old bytes.now) }
    ensures law { KeepsLaw table.old bytes.now result table.new }
{
    let mut due = Due::Start;
    let mut rest = bytes;
    while !rest.is_empty() {
        let place = bytes.len() - rest.len();
        match read(rest) {
            Ok((item, after)) => {
                due = turn(due, item, table, place)?;
                rest = after;
            }
            Err(why) => {
                let why = unread(&due, why);
                return Err(RefusedAt { why, place });
            }
        }
    }
    match due {
        Due::Rest(search) => Ok(search),
        _ => {
            let why = Refusal::RecordCutShort;
            let place = bytes.len();
            Err(RefusedAt { why, place })
        }
    }
}
