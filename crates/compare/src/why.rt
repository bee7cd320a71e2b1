// Why a call was refused, by either side.
use reference::stop::Cause;
use refusal::Refusal;
use std::fmt;

// A cause by the number that docs/ gives it, which is all that the two sides share.
#[derive(Clone, Copy, Debug, PartialEq, Eq, PartialOrd, Ord)]
pub struct Why(u8);

impl Why {
    // The cause that docs/ gives a number.
    pub fn told(number: u8) -> Why {
        Why(number)
    }
}

impl From<Refusal> for Why {
    fn from(refusal: Refusal) -> Why {
        Why(refusal.number())
    }
}

impl From<Cause> for Why {
    fn from(cause: Cause) -> Why {
        Why(cause.number())
    }
}

impl fmt::Display for Why {
    fn fmt<W: fmt::Write>(&self, f: &mut fmt::Formatter<W>) -> fmt::Result {
        let number = self.0;
        write!(f, "{number}")
    }
}
