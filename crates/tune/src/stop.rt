// Why the program stops before its end.
use refusal::Refusal;
use std::io;

// A refusal of the search, or a fault of the output.
#[derive(Drop)]
pub enum Stop {
    Refused(Refusal),
    Failed(io::Error),
}

impl From<Refusal> for Stop {
    fn from(why: Refusal) -> Stop {
        Stop::Refused(why)
    }
}

// A refusal beside what it hands back.
impl<S: Drop> From<(Refusal, S)> for Stop {
    fn from(refused: (Refusal, S)) -> Stop {
        Stop::Refused(refused.0)
    }
}

impl From<io::Error> for Stop {
    fn from(error: io::Error) -> Stop {
        Stop::Failed(error)
    }
}
