// What an item of a record makes of what is due. Each refusal gets its place where it arises: `map_err` would say the same at the same length.
ghost use Rattle.std.specs.Prelude.{◌≡◌, List, T, Decides, Ok, Err};
ghost use Rattle.order.specs.Answers.{allowed};
ghost use Rattle.refusal.specs.declared.Refusal.TheVariants.{ReadingOutOfRange};
ghost use Rattle.record.specs.declared.item.Item.TheVariants as item;
ghost use Rattle.table.specs.declared.rows.Row.{Row as RowValue};
ghost use Rattle.search.specs.Calls.{OwnRest};
ghost use Rattle.search.specs.Turns.{AnsweredBelow, InTurn, IsCapped, IsPoints, IsRest, OwnDue, OwnNext, Ready, Turns};
ghost use Rattle.search.specs.declared.replay.due.Due.{Due as DueValue};
ghost use Rattle.search.specs.declared.replay.due.Due.TheVariants as state;

use crate::answer::note;
use crate::begin::begin;
use crate::replay::due::Due;
use crate::replay::refused_at::RefusedAt;
use crate::replay::rounds::open_named;
use crate::states::{Rest, Round};
use order::answer::Answer;
use policy::cap::Most;
use record::item::{Item, Mark, Named};
use refusal::Refusal;
use table::rows::Row;

// Whether an answer is one that a search takes; a reading out of range is refused where its mark stands.
fn check_reading(answer: Answer, place: usize) -> Result<(), RefusedAt>
    ensures { elim result [ Ok _ ↦ T (allowed answer) | Err refused ↦ (T (allowed answer) → ⊥) × (refused ≡ record { why = ReadingOutOfRange; place = place }) ] }
{
    if answer.is_allowed() {
        Ok(())
    } else {
        let why = Refusal::ReadingOutOfRange;
        Err(RefusedAt { why, place })
    }
}

// The answer for the middle cell begins the search. What is wrong with a beginning names byte 0, whatever item was read, so that the place is no part of what is due.
fn answer_middle(
    n: u8,
    finest: u8,
    answer: Answer,
    table: &mut [Row],
    place: usize,
) -> Result<Due, RefusedAt>
    ensures turns { Turns place (state.Centre n finest) table.old (item.Answer answer) result table.new }
    ensures own { OwnNext result table.new }
{
    check_reading(answer, place)?;
    match begin(n, finest, table, answer) {
        Ok(rest) => Ok(Due::Rest(rest)),
        Err(why) => Err(RefusedAt { why, place: 0 }),
    }
}

// A cap for the round that follows.
fn set_cap(rest: Rest, number: u8, place: usize) -> Result<Due, RefusedAt>
    ensures { (table : List RowValue) → OwnRest rest table → Turns place (state.Rest rest) table (item.Cap number) result table × OwnNext result table }
{
    match Most::try_from(number) {
        Ok(most) => Ok(Due::Capped(rest, most)),
        Err(why) => Err(RefusedAt { why, place }),
    }
}

// A round by a policy, under a cap or none.
fn open_round(
    rest: Rest,
    cap: Option<Most>,
    by: Named,
    table: &mut [Row],
    place: usize,
) -> Result<Due, RefusedAt>
    requires { OwnRest rest table.old }
    ensures turns { (d : DueValue) → Ready d rest cap → Turns place d table.old (item.Round by) result table.new }
    ensures own { OwnNext result table.new }
{
    match open_named(rest, cap, by, table) {
        Ok(round) => Ok(Due::Points(round, 0)),
        Err(why) => Err(RefusedAt { why, place }),
    }
}

// The answer for the next point; the last one closes the round.
fn answer_point(
    round: Round,
    p: usize,
    answer: Answer,
    table: &mut [Row],
    place: usize,
) -> Result<Due, RefusedAt>
    requires { AnsweredBelow round table.old p }
    ensures turns { Turns place (state.Points round p) table.old (item.Answer answer) result table.new }
    ensures own { OwnNext result table.new }
{
    check_reading(answer, place)?;
    note(round.boxes + p, answer, table);
    if p + 1 < round.points {
        Ok(Due::Points(round, p + 1))
    } else {
        Ok(Due::Rest(round.close_answered(table)))
    }
}

// What is due after an item whose mark stands at a place.
pub(crate) fn turn(due: Due, item: Item, table: &mut [Row], place: usize) -> Result<Due, RefusedAt>
    requires { OwnDue due table.old }
    ensures turns { Turns place due table.old item result table.new }
    ensures own { OwnNext result table.new }
{
    match (due, item) {
        (Due::Start, Item::Begin(n, finest)) => Ok(Due::Centre(n, finest)),
        (Due::Centre(n, finest), Item::Answer(a)) => answer_middle(n, finest, a, table, place),
        (Due::Rest(rest), Item::Cap(m)) => set_cap(rest, m, place),
        (Due::Rest(rest), Item::Round(by)) => open_round(rest, None, by, table, place),
        (Due::Capped(rest, most), Item::Round(by)) => open_round(
            rest,
            Some(most),
            by,
            table,
            place,
        ),
        (Due::Points(round, p), Item::Answer(a)) => answer_point(round, p, a, table, place),
        _ => Err(RefusedAt {
            why: Refusal::MarkOutOfTurn,
            place,
        }),
    }
}

// Whether a mark may come.
pub(crate) fn in_turn(due: &Due, mark: Mark) -> bool
    ensures { Decides result (InTurn due.now mark) }
{
    match (due, mark) {
        (Due::Start, Mark::Begin) => true,
        (Due::Centre(..) | Due::Points(..), Mark::Value | Mark::NotFeasible) => true,
        (Due::Rest(_), Mark::Cap | Mark::Every | Mark::Hull) => true,
        (Due::Capped(..), Mark::Every | Mark::Hull) => true,
        _ => false,
    }
}
