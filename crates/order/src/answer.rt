// What is measured at a cell: a reading, or the mark "not feasible".
ghost use Rattle.std.specs.Prelude.{◌≡◌, Some};
ghost use Rattle.order.specs.Answers.{allowed, answer_before, answer_text, numbered_before};

use std::fmt;

// The greatest reading; the least is its negative.
pub const GREATEST_READING: i32 = 1_000_000_000;

// The derived order is the rule: readings by value, and the mark after all of them, where an `Option` has its none first.
// `is_before` says the same under contract, and is written out: by the derived order a search for the first took half as long again.
// That both are one order is the law `by_key` of `Keyed for Answer`.
#[derive(Clone, Copy, PartialEq, Eq, PartialOrd, Ord, Debug)]
pub enum Answer {
    Reading(i32),
    NotFeasible,
}

impl Answer {
    // Whether it is one that a search takes: a reading in range, or "not feasible".
    pub fn is_allowed(self) -> bool
        ensures { result ≡ allowed self }
    {
        match self {
            Answer::Reading(x) => -GREATEST_READING <= x && x <= GREATEST_READING,
            Answer::NotFeasible => true,
        }
    }

    // Whether it goes before another: readings by value, "not feasible" after all readings.
    pub fn is_before(self, other: Answer) -> bool
        ensures { result ≡ answer_before self other }
    {
        match (self, other) {
            (Answer::Reading(a), Answer::Reading(b)) => a < b,
            (Answer::Reading(_), Answer::NotFeasible) => true,
            (Answer::NotFeasible, _) => false,
        }
    }

    // Whether it goes before another, or by the lower number where neither answer goes before.
    pub fn is_before_at(self, number: usize, other: Answer, other_number: usize) -> bool
        ensures { result ≡ numbered_before (record { answer = self; number = number }) (record { answer = other; number = other_number }) }
    {
        self.is_before(other) || (!other.is_before(self) && number < other_number)
    }
}

// Its reading, or a dash.
impl fmt::Display for Answer {
    ghost output = { λ a. Some (answer_text a) };

    fn fmt<W: fmt::Write>(&self, f: &mut fmt::Formatter<W>) -> fmt::Result {
        match self {
            Answer::Reading(x) => write!(f, "{x}"),
            Answer::NotFeasible => write!(f, "-"),
        }
    }
}
