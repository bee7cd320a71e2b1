// What ends the measurements before their end.
use reference::stop::{Cause, RefusedAt as AgainAt, Stop};
use refusal::Refusal;
use search::replay::refused_at::RefusedAt;
use std::alloc::{AllocError, AllocFailed};
use std::{fmt, io};

#[derive(Drop)]
pub enum Fail {
    Memory,
    // a call of the package was refused
    Refused(Refusal),
    // a call of the second implementation was refused
    Again(Cause),
    // the two implementations left other tables
    Other,
    Io(io::Error),
}

impl fmt::Display for Fail {
    fn fmt<W: fmt::Write>(&self, f: &mut fmt::Formatter<W>) -> fmt::Result {
        match self {
            Fail::Memory => write!(f, "no memory"),
            Fail::Refused(refusal) => write!(f, "refused {}", refusal.number()),
            Fail::Again(cause) => write!(f, "refused {}", cause.number()),
            Fail::Other => write!(f, "the implementations differ"),
            Fail::Io(error) => write!(f, "{error}"),
        }
    }
}

// Each program says by itself how it ends where memory runs out: an impl is for one type of one crate.
impl From<AllocError> for Fail {
    fn from(_e: AllocError) -> Fail {
        Fail::Memory
    }
}

impl<T: Drop> From<AllocFailed<T>> for Fail {
    fn from(_e: AllocFailed<T>) -> Fail {
        Fail::Memory
    }
}

impl From<Refusal> for Fail {
    fn from(refusal: Refusal) -> Fail {
        Fail::Refused(refusal)
    }
}

// A refusal that hands the state back.
impl<S: Drop> From<(Refusal, S)> for Fail {
    fn from((refusal, _): (Refusal, S)) -> Fail {
        Fail::Refused(refusal)
    }
}

impl From<RefusedAt> for Fail {
    fn from(refused: RefusedAt) -> Fail {
        Fail::Refused(refused.why)
    }
}

impl From<Cause> for Fail {
    fn from(cause: Cause) -> Fail {
        Fail::Again(cause)
    }
}

impl From<AgainAt> for Fail {
    fn from(refused: AgainAt) -> Fail {
        Fail::Again(refused.cause)
    }
}

impl<C: Into<Fail>> From<Stop<C>> for Fail {
    fn from(stop: Stop<C>) -> Fail {
        match stop {
            Stop::Refused(cause) => cause.into(),
            Stop::Memory => Fail::Memory,
        }
    }
}

impl From<io::Error> for Fail {
    fn from(error: io::Error) -> Fail {
        Fail::Io(error)
    }
}
