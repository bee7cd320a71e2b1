// What ends a call of the reference before its result.
use std::alloc::{AllocError, AllocFailed};

// Why a call is refused, with the number that docs/ gives each cause.
#[derive(Clone, Copy, Debug, PartialEq, Eq)]
pub enum Cause {
    Directions = 1,
    Finest = 2,
    NoRow = 3,
    NoReading = 4,
    ForeignTable = 5,
    AllFinished = 6,
    NoRoom = 7,
    NoSuchPoint = 8,
    Answered = 9,
    PointWaits = 10,
    ShortList = 11,
    Share = 12,
    Cap = 13,
    UnknownMark = 16,
    CutShort = 17,
    OutOfTurn = 18,
}

// Why a record is refused, and at which byte.
#[derive(Clone, Copy, Debug, PartialEq, Eq)]
pub struct RefusedAt {
    pub cause: Cause,
    pub place: usize,
}

// A refusal, or no memory.
#[derive(Clone, Copy, Debug, PartialEq, Eq)]
pub enum Stop<C = Cause> {
    Refused(C),
    Memory,
}

impl Cause {
    // The number of the cause.
    pub fn number(self) -> u8 {
        self as u8
    }

    // The refusal of an item at a place: what is wrong with a beginning names the beginning.
    pub fn at(self, place: usize) -> RefusedAt {
        let place = match self {
            Cause::Directions | Cause::Finest | Cause::NoRow => 0,
            _ => place,
        };
        RefusedAt { cause: self, place }
    }
}

impl Stop {
    // The same, of a record's item at a place.
    pub fn at(self, place: usize) -> Stop<RefusedAt> {
        match self {
            Stop::Refused(cause) => Stop::Refused(cause.at(place)),
            Stop::Memory => Stop::Memory,
        }
    }
}

impl From<Cause> for Stop {
    fn from(cause: Cause) -> Stop {
        Stop::Refused(cause)
    }
}

impl From<RefusedAt> for Stop<RefusedAt> {
    fn from(refused: RefusedAt) -> Stop<RefusedAt> {
        Stop::Refused(refused)
    }
}

// Each program says by itself how it ends where memory runs out: an impl is for one type of one crate.
impl<C> From<AllocError> for Stop<C> {
    fn from(_e: AllocError) -> Stop<C> {
        Stop::Memory
    }
}

impl<C, T: Drop> From<AllocFailed<T>> for Stop<C> {
    fn from(_e: AllocFailed<T>) -> Stop<C> {
        Stop::Memory
    }
}
