// What ends the program before its end.
use crate::seen::Difference;
use reference::stop::Stop;
use std::alloc::{AllocError, AllocFailed};

// A difference, a worked example that does not go on, or no memory.
#[derive(Drop)]
pub enum Halt {
    Differs(Difference),
    Stuck,
    Memory,
}

// Each program says by itself how it ends where memory runs out: an impl is for one type of one crate.
impl From<AllocError> for Halt {
    fn from(_e: AllocError) -> Halt {
        Halt::Memory
    }
}

impl<T: Drop> From<AllocFailed<T>> for Halt {
    fn from(_e: AllocFailed<T>) -> Halt {
        Halt::Memory
    }
}

// What a call of the reference gave, unless memory ran out.
pub fn settled<T, C>(given: Result<T, Stop<C>>) -> Result<Result<T, C>, Halt> {
    match given {
        Ok(value) => Ok(Ok(value)),
        Err(Stop::Refused(cause)) => Ok(Err(cause)),
        Err(Stop::Memory) => Err(Halt::Memory),
    }
}
