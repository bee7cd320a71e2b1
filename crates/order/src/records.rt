// Boxes, directions and ranks, each by an answer and then by the lower number.
ghost use Rattle.std.specs.Prelude.{◌≡◌, Option as Entry, is_none};
ghost use Rattle.order.specs.Answers.{Numbered, answer_before, earlier_answer, entry_before, numbered_before};
ghost use Rattle.order.specs.Records.{candidate_key, direction_key, rank_key};
ghost use Rattle.order.specs.declared.answer.Answer.{Answer as AnswerKey};
ghost use Rattle.std.proofs.Common.{rules};

use crate::answer::Answer;
use crate::ordered::{Keyed, Ordered};

// A box, by its answer and its row.
#[derive(Clone, Copy)]
pub struct Candidate {
    pub answer: Answer,
    pub row: usize,
}

// A direction, by w, the earlier of the answers of its two points.
#[derive(Clone, Copy)]
pub struct Direction {
    pub w: Answer,
    pub number: usize,
}

// A rank, by the answer of its first box.
#[derive(Clone, Copy)]
pub struct RankEntry {
    pub answer: Answer,
    pub rank: usize,
}

impl Direction {
    // The direction of two points, with the answers at the low and the high one.
    pub fn new(number: usize, low: Answer, high: Answer) -> Direction
        ensures w { result.w ≡ earlier_answer low high }
        ensures number { result.number ≡ number }
    {
        let w = if high.is_before(low) { high } else { low };
        Direction { w, number }
    }
}

impl Ordered for Answer {
    ghost Key = { AnswerKey };

    ghost key = { λ a. a };

    ghost before = { answer_before };

    ghost irreflexive = { Prim.search rules };

    ghost transitive = { Prim.search rules };

    ghost total = { Prim.search rules };

    fn precedes(&self, other: &Answer) -> bool {
        self.is_before(*other)
    }
}

// Entries go by their answers, empty ones last; among equal answers `least` takes the earlier place.
impl Ordered for Option<Answer> {
    ghost Key = { Entry AnswerKey };

    ghost key = { λ e. e };

    ghost before = { entry_before };

    ghost irreflexive = { Prim.search rules };

    ghost transitive = { Prim.search rules };

    ghost total = { Prim.search rules };

    fn precedes(&self, other: &Option<Answer>) -> bool {
        match (*self, *other) {
            (Some(a), Some(b)) => a.is_before(b),
            (Some(_), None) => true,
            (None, _) => false,
        }
    }
}

// A candidate, a direction and a rank's entry are kinds of their own, which no call may take for one another.
impl Ordered for Candidate {
    ghost Key = { Numbered };

    ghost key = { candidate_key };

    ghost before = { numbered_before };

    ghost irreflexive = { Prim.search rules };

    ghost transitive = { Prim.search rules };

    ghost total = { Prim.search rules };

    fn precedes(&self, other: &Candidate) -> bool {
        self.answer.is_before_at(self.row, other.answer, other.row)
    }
}

impl Ordered for Direction {
    ghost Key = { Numbered };

    ghost key = { direction_key };

    ghost before = { numbered_before };

    ghost irreflexive = { Prim.search rules };

    ghost transitive = { Prim.search rules };

    ghost total = { Prim.search rules };

    fn precedes(&self, other: &Direction) -> bool {
        self.w.is_before_at(self.number, other.w, other.number)
    }
}

impl Ordered for RankEntry {
    ghost Key = { Numbered };

    ghost key = { rank_key };

    ghost before = { numbered_before };

    ghost irreflexive = { Prim.search rules };

    ghost transitive = { Prim.search rules };

    ghost total = { Prim.search rules };

    fn precedes(&self, other: &RankEntry) -> bool {
        self.answer
            .is_before_at(self.rank, other.answer, other.rank)
    }
}

impl Keyed for Answer {
    type Key = Answer;

    ghost key = { λ a. a };

    ghost by_key = { Prim.search rules };

    ghost total = { Prim.search rules };

    fn key(&self) -> Answer {
        *self
    }
}

impl Keyed for Option<Answer> {
    type Key = (bool, Option<Answer>);

    ghost key = { λ e. (is_none e, e) };

    ghost by_key = { Prim.search rules };

    ghost total = { Prim.search rules };

    fn key(&self) -> (bool, Option<Answer>) {
        (self.is_none(), *self)
    }
}

impl Keyed for Candidate {
    type Key = (Answer, usize);

    ghost key = { λ c. (c.answer, c.row) };

    ghost by_key = { Prim.search rules };

    ghost total = { Prim.search rules };

    fn key(&self) -> (Answer, usize) {
        (self.answer, self.row)
    }
}

impl Keyed for Direction {
    type Key = (Answer, usize);

    ghost key = { λ d. (d.w, d.number) };

    ghost by_key = { Prim.search rules };

    ghost total = { Prim.search rules };

    fn key(&self) -> (Answer, usize) {
        (self.w, self.number)
    }
}

impl Keyed for RankEntry {
    type Key = (Answer, usize);

    ghost key = { λ e. (e.answer, e.rank) };

    ghost by_key = { Prim.search rules };

    ghost total = { Prim.search rules };

    fn key(&self) -> (Answer, usize) {
        (self.answer, self.rank)
    }
}
