// The lines of the reference's table: plain numbers.
use super::stop::Cause;
use std::alloc::Global;
use std::fmt;

// How many directions a line has numbers for.
pub const WIDTH: usize = 6;

// The least and the greatest number that is a reading.
const LOWEST: i32 = -1_000_000_000;

const HIGHEST: i32 = 1_000_000_000;

// What is measured at a point. The order of the search is the derived one: readings rise, and "not feasible" is last;
// an `Option` would put it first.
#[derive(Clone, Copy, Debug, PartialEq, Eq, PartialOrd, Ord)]
pub enum Answer {
    Reading(i32),
    NotFeasible,
}

// A first cell and a level.
#[derive(Clone, Copy, Debug, PartialEq, Eq)]
pub struct Side {
    pub first: u32,
    pub level: u8,
}

// What stands beside a box. An `Option` of an answer would take twelve bytes in each line, and this takes eight.
#[derive(Clone, Copy, Debug, PartialEq, Eq)]
pub enum Mark {
    Waits,
    Reading(i32),
    NotFeasible,
}

// A box and its mark.
#[derive(Clone, Copy, Debug, PartialEq, Eq)]
pub struct Line {
    pub sides: [Side; WIDTH],
    pub mark: Mark,
}

// The caller's table, with the memory for what is worked out from it.
#[derive(Drop)]
pub struct Table<'a> {
    pub heap: Global,
    pub lines: &'a mut [Line],
}

// The same where it is only read.
#[derive(Clone, Copy)]
pub struct Rows<'a> {
    pub heap: Global,
    pub lines: &'a [Line],
}

impl Answer {
    // The reading, if it is one.
    pub fn reading(self) -> Option<i32> {
        match self {
            Answer::Reading(x) => Some(x),
            Answer::NotFeasible => None,
        }
    }

    // Whether it may be given.
    fn is_allowed(self) -> bool {
        self.reading().is_none_or(|x| LOWEST <= x && x <= HIGHEST)
    }

    // The same as a check.
    pub fn allowed(self) -> Result<Answer, Cause> {
        if self.is_allowed() {
            Ok(self)
        } else {
            Err(Cause::NoReading)
        }
    }
}

impl From<Option<Answer>> for Mark {
    fn from(answer: Option<Answer>) -> Mark {
        match answer {
            None => Mark::Waits,
            Some(Answer::Reading(x)) => Mark::Reading(x),
            Some(Answer::NotFeasible) => Mark::NotFeasible,
        }
    }
}

impl Mark {
    // The answer, or none where it waits.
    pub fn answer(self) -> Option<Answer> {
        match self {
            Mark::Waits => None,
            Mark::Reading(x) => Some(Answer::Reading(x)),
            Mark::NotFeasible => Some(Answer::NotFeasible),
        }
    }
}

impl Table<'_> {
    // The table, to be read.
    pub fn rows(&self) -> Rows<'_> {
        Rows {
            heap: self.heap,
            lines: self.lines,
        }
    }
}

impl Side {
    // All cells of a direction.
    pub const WHOLE: Side = Side { first: 0, level: 0 };
}

impl Line {
    // The whole grid.
    pub fn whole(answer: Option<Answer>) -> Line {
        Line {
            sides: [Side::WHOLE; WIDTH],
            mark: Mark::from(answer),
        }
    }

    // The answer beside the numbers, or none where it waits or reads so.
    pub fn said(&self) -> Option<Answer> {
        self.mark.answer().filter(|answer| answer.is_allowed())
    }
}

impl fmt::Display for Answer {
    fn fmt<W: fmt::Write>(&self, f: &mut fmt::Formatter<W>) -> fmt::Result {
        match self {
            Answer::Reading(x) => write!(f, "{x}"),
            Answer::NotFeasible => write!(f, "-"),
        }
    }
}

impl fmt::Display for Mark {
    fn fmt<W: fmt::Write>(&self, f: &mut fmt::Formatter<W>) -> fmt::Result {
        match self.answer() {
            Some(answer) => write!(f, "{answer}"),
            None => write!(f, "waits"),
        }
    }
}

impl fmt::Display for Side {
    fn fmt<W: fmt::Write>(&self, f: &mut fmt::Formatter<W>) -> fmt::Result {
        let Side { first, level } = *self;
        write!(f, "{first}/{level}")
    }
}

impl fmt::Display for Line {
    fn fmt<W: fmt::Write>(&self, f: &mut fmt::Formatter<W>) -> fmt::Result {
        let mark = self.mark;
        write!(f, "{mark}")?;
        for side in &self.sides {
            write!(f, " {side}")?;
        }
        Ok(())
    }
}
