// Calls with their arguments, what both sides give, and a difference of these.
ghost use Rattle.std.specs.Iterator.{IsFinite};

use crate::plan::Plan;
use crate::states::State;
use crate::tables::Pair;
use crate::why::Why;
use reference::frame::Frame;
use reference::lines::{Answer, Line};
use reference::stop;
use reference::stop::Cause;
use refusal::Refusal;
use search::replay::refused_at::RefusedAt;
use std::fmt;

// The numbers of a cell list, more than any search has directions.
pub const ROOM: usize = 8;

// How many ranks there are.
const RANKS: usize = 114;

#[derive(Clone, Copy)]
pub enum Call {
    Make(Plan),
    Begin(Frame, Answer),
    Open(Plan),
    Locate(usize, usize),
    Waiting,
    Answer(usize, Answer),
    Close,
    Best,
    Replay(usize),
}

// A call with the rows of its table.
#[derive(Clone, Copy)]
pub struct Asked {
    pub call: Call,
    pub rows: usize,
}

// The ranks that a round cuts: whether each is one of them, and last whether any other number is, which is no rank.
#[derive(Clone, Copy, PartialEq, Eq)]
pub struct Chosen([bool; RANKS + 1]);

// The numbers of a search; at rest no rank is chosen, and there is no point.
#[derive(Clone, Copy, PartialEq, Eq)]
pub struct Numbers {
    pub frame: Frame,
    pub boxes: usize,
    pub rounds: usize,
    pub chosen: Chosen,
    pub points: usize,
}

// What a call gives, or what stands in a row after it. A cell list is seen after a refusal too.
#[derive(Clone, Copy, PartialEq, Eq)]
pub enum Seen {
    Refused(Why),
    RefusedAt(Why, usize),
    Done,
    State(Numbers),
    Cells(Option<Why>, [u32; ROOM]),
    Point(Option<usize>),
    Best(Option<(usize, i32)>),
    Rows(usize),
    Row(usize, Line),
}

// What the package is compared with.
#[derive(Clone, Copy)]
pub enum Beside {
    Reference,
    Docs,
}

// The call at which both sides differ, and what each gave or what docs/ says.
#[derive(Clone, Copy)]
pub struct Difference {
    pub run: u64,
    pub number: u64,
    pub asked: Asked,
    pub package: Seen,
    pub beside: Beside,
    pub other: Seen,
}

impl Asked {
    pub fn new(call: Call, table: &Pair<'_>) -> Asked {
        Asked {
            call,
            rows: table.rows.len(),
        }
    }
}

impl Chosen {
    const NONE: Chosen = Chosen([false; RANKS + 1]);

    pub fn of<I: Iterator<Item = usize>>(ranks: I) -> Chosen
        requires can { I.can_next ranks }
        requires ends { IsFinite (I.remaining ranks) }
    {
        let mut chosen = Chosen::NONE;
        for rank in ranks {
            if let Some(is_chosen) = chosen.0.get_mut(rank.min(RANKS)) {
                *is_chosen = true;
            }
        }
        chosen
    }
}

impl Numbers {
    // The numbers of a search at rest.
    pub fn at_rest(frame: Frame, boxes: usize, rounds: usize) -> Numbers {
        Numbers {
            frame,
            boxes,
            rounds,
            chosen: Chosen::NONE,
            points: 0,
        }
    }
}

impl From<Refusal> for Seen {
    fn from(refusal: Refusal) -> Seen {
        Seen::Refused(Why::from(refusal))
    }
}

impl From<Cause> for Seen {
    fn from(cause: Cause) -> Seen {
        Seen::Refused(Why::from(cause))
    }
}

impl From<RefusedAt> for Seen {
    fn from(refused: RefusedAt) -> Seen {
        Seen::RefusedAt(Why::from(refused.why), refused.place)
    }
}

impl From<stop::RefusedAt> for Seen {
    fn from(refused: stop::RefusedAt) -> Seen {
        Seen::RefusedAt(Why::from(refused.cause), refused.place)
    }
}

impl Seen {
    // What a call gave.
    pub fn of<E: Into<Seen>>(given: Result<Seen, E>) -> Seen {
        match given {
            Ok(seen) => seen,
            Err(why) => why.into(),
        }
    }

    // What a call gave that leads to a state.
    pub fn state<S: State, E: Into<Seen>>(given: Result<&S, E>) -> Seen {
        Seen::of(given.map(|state| Seen::State(state.numbers())))
    }

    // Why it is a refusal, if it is one.
    pub fn why(self) -> Option<Why> {
        match self {
            Seen::Refused(why) | Seen::RefusedAt(why, _) => Some(why),
            Seen::Cells(why, _) => why,
            _ => None,
        }
    }
}

impl fmt::Display for Beside {
    fn fmt<W: fmt::Write>(&self, f: &mut fmt::Formatter<W>) -> fmt::Result {
        f.write_str(match self {
            Beside::Reference => "reference",
            Beside::Docs => "docs",
        })
    }
}

impl fmt::Display for Difference {
    fn fmt<W: fmt::Write>(&self, f: &mut fmt::Formatter<W>) -> fmt::Result {
        let Difference {
            run,
            number,
            asked: Asked { call, rows },
            package,
            beside,
            other,
        } = *self;
        writeln!(f, "difference in run {run} (its number is its start value)")?;
        writeln!(f, "call {number}: {call}, with a table of {rows} rows")?;
        writeln!(f, "package: {package}")?;
        write!(f, "{beside}: {other}")
    }
}

impl fmt::Display for Call {
    fn fmt<W: fmt::Write>(&self, f: &mut fmt::Formatter<W>) -> fmt::Result {
        match *self {
            Call::Make(plan) => write!(f, "make {plan}"),
            Call::Begin(frame, answer) => write!(f, "begin {frame} answer {answer}"),
            Call::Open(plan) => write!(f, "open by {plan}"),
            Call::Locate(point, room) => write!(f, "locate point {point} in a list of {room}"),
            Call::Waiting => write!(f, "waiting"),
            Call::Answer(point, answer) => write!(f, "answer point {point} with {answer}"),
            Call::Close => write!(f, "close"),
            Call::Best => write!(f, "best"),
            Call::Replay(bytes) => write!(f, "replay {bytes} bytes"),
        }
    }
}

impl fmt::Display for Chosen {
    fn fmt<W: fmt::Write>(&self, f: &mut fmt::Formatter<W>) -> fmt::Result {
        for (rank, is_chosen) in self.0.iter().enumerate() {
            if *is_chosen {
                write!(f, " {rank}")?;
            }
        }
        Ok(())
    }
}

impl fmt::Display for Numbers {
    fn fmt<W: fmt::Write>(&self, f: &mut fmt::Formatter<W>) -> fmt::Result {
        let Numbers {
            frame,
            boxes,
            rounds,
            chosen,
            points,
        } = *self;
        write!(f, "{frame} boxes {boxes} rounds {rounds}")?;
        write!(f, " points {points} chosen{chosen}")
    }
}

impl fmt::Display for Seen {
    fn fmt<W: fmt::Write>(&self, f: &mut fmt::Formatter<W>) -> fmt::Result {
        match *self {
            Seen::Refused(why) => write!(f, "refused {why}"),
            Seen::RefusedAt(why, place) => write!(f, "refused {why} at {place}"),
            Seen::Done => write!(f, "done"),
            Seen::State(numbers) => write!(f, "{numbers}"),
            Seen::Cells(None, cells) => write!(f, "cells {cells:?}"),
            Seen::Cells(Some(why), cells) => write!(f, "refused {why}, cells {cells:?}"),
            Seen::Point(Some(point)) => write!(f, "point {point} waits"),
            Seen::Point(None) => write!(f, "no point waits"),
            Seen::Best(Some((row, reading))) => write!(f, "row {row} with {reading}"),
            Seen::Best(None) => write!(f, "no reading"),
            Seen::Rows(count) => write!(f, "a table of {count} rows"),
            Seen::Row(place, line) => write!(f, "row {place}: {line}"),
        }
    }
}
