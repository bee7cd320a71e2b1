// The front that some boxes form.
ghost use Rattle.std.specs.Prelude.{◌≡◌, ℕ, ◌<◌, length, None, slice_index_or};
ghost use Rattle.policy.specs.declared.front.Front.{Front as FrontValue};
ghost use Rattle.table.specs.Fronts.{FrontOf, ReadingsOf, answer_in, widened as widened_by};

use crate::rows::Row;
use crate::shape::Shape;
use order::answer::Answer;
use order::records::Candidate;
use policy::front::Front;
use ranks::rank_set::RANKS;

// The ends of some readings, once that of an answer is among them.
fn widened(ends: Option<(i32, i32)>, answer: Option<Answer>) -> Option<(i32, i32)>
    ensures { result ≡ widened_by ends answer }
{
    match (ends, answer) {
        (None, Some(Answer::Reading(x))) => Some((x, x)),
        (Some((low, high)), Some(Answer::Reading(x))) => Some((x.min(low), x.max(high))),
        _ => ends,
    }
}

// The least and the greatest reading of some boxes, or none.
fn readings_of(boxes: &[Row]) -> Option<(i32, i32)>
    ensures { ReadingsOf (length boxes.now) boxes.now result }
{
    boxes
        .iter()
        .fold(None, |ends, row| widened(ends, row.entry.shown()))
}

// The answer of the first box of each rank. By the array's `map` the front of a small table took twice as long, and with `from_fn` the proof stays open.
fn entries_of(firsts: &[Option<Candidate>; RANKS]) -> [Option<Answer>; RANKS]
    ensures { (r : ℕ) → r < 114 → slice_index_or result r None ≡ answer_in (slice_index_or firsts.now r None) }
{
    let mut entries = [None; RANKS];
    for r in 0..RANKS {
        if let Some(first) = firsts[r] {
            entries[r] = Some(first.answer);
        }
    }
    entries
}

impl Shape {
    // The front of some boxes, which have no other.
    pub fn front_of(&self, boxes: &[Row]) -> Front
        ensures front { FrontOf self.now.n self.now.finest (length boxes.now) boxes.now result }
        ensures only { (g : FrontValue) → FrontOf self.now.n self.now.finest (length boxes.now) boxes.now g → g ≡ result }
    {
        let entries = entries_of(&self.firsts(boxes));
        match Front::new(self.n, entries, readings_of(boxes)) {
            Some(front) => front,
            None => unreachable(),
        }
    }
}
