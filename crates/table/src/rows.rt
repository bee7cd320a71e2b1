// What a row of the caller's table holds: plain numbers, and any of them.
ghost use Rattle.std.specs.Prelude.{◌≡◌, MatchOption};
ghost use Rattle.grid.specs.Grid.{IsInterval};
ghost use Rattle.order.specs.Answers.{answer_before};
ghost use Rattle.order.specs.declared.answer.Answer.{Answer as AnswerKey};
ghost use Rattle.table.specs.Entries.{answer_of, shown_by, waiting};
ghost use Rattle.table.specs.Rows.{span_of, whole_grid};
ghost use Rattle.std.proofs.Common.{rules};

use grid::interval::Interval;
use order::answer::Answer;
use order::ordered::{Keyed, Ordered};

// How many directions a row has numbers for.
pub const SIDES: usize = 6;

// A first cell and a level: an interval only where they have the form of one.
#[derive(Clone, Copy, PartialEq, Eq, Debug)]
pub struct Span {
    pub first: u32,
    pub level: u8,
}

// What stands beside a row's box. A reading out of range reads as the waiting mark.
// An `Option` would be no plainer: its `is_some` would not say that a row has an answer.
#[derive(Clone, Copy, PartialEq, Eq, Debug)]
pub enum Entry {
    Waiting,
    Answered(Answer),
}

// A span in each of six directions, and an entry.
#[derive(Clone, Copy, PartialEq, Eq, Debug)]
pub struct Row {
    pub spans: [Span; SIDES],
    pub entry: Entry,
}

impl Span {
    // The interval that its numbers make, or none where they make none.
    pub fn interval(self) -> Option<Interval>
        ensures { MatchOption result (IsInterval self.first self.level → ⊥) (λ i. (i.first ≡ self.first) × (i.level ≡ self.level)) }
    {
        Interval::new(self.first, self.level)
    }
}

impl From<Interval> for Span {
    ghost from_gives = { λ i s. s ≡ span_of i };

    fn from(interval: Interval) -> Span {
        Span {
            first: interval.first(),
            level: interval.level(),
        }
    }
}

impl Entry {
    // The answer that it shows, or none where it reads as the waiting mark.
    pub fn shown(self) -> Option<Answer>
        ensures { result ≡ shown_by self }
    {
        match self {
            Entry::Answered(answer) if answer.is_allowed() => Some(answer),
            _ => None,
        }
    }

    // Whether it reads as the waiting mark.
    pub fn waits(self) -> bool
        ensures { result ≡ waiting self }
    {
        self.shown().is_none()
    }

    // The answer by which it goes; without one it goes last.
    pub fn answer(self) -> Answer
        ensures { result ≡ answer_of self }
    {
        self.shown().unwrap_or(Answer::NotFeasible)
    }
}

impl Row {
    // The whole grid, with an entry.
    pub fn whole(entry: Entry) -> Row
        ensures { result ≡ whole_grid entry }
    {
        Row {
            spans: [Span { first: 0, level: 0 }; SIDES],
            entry,
        }
    }
}

// Rows go by their answers; among equal answers `least` takes the lower row.
impl Ordered for Row {
    ghost Key = { AnswerKey };

    ghost key = { λ r. answer_of r.entry };

    ghost before = { answer_before };

    ghost irreflexive = { Prim.search rules };

    ghost transitive = { Prim.search rules };

    ghost total = { Prim.search rules };

    fn precedes(&self, other: &Row) -> bool {
        self.entry.answer().is_before(other.entry.answer())
    }
}

impl Keyed for Row {
    type Key = Answer;

    ghost key = { λ r. answer_of r.entry };

    ghost by_key = { Prim.search rules };

    ghost total = { Prim.search rules };

    fn key(&self) -> Answer {
        let entry = self.entry;
        entry.answer()
    }
}
