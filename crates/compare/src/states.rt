// The states of both sides together, and their numbers.
use crate::seen::{Chosen, Numbers};
use reference::frame::Frame;
use reference::going::Going;
use reference::still::Still;
use search::states::{Rest, Round};
use table::shape::Shape;

// Both at rest.
#[derive(Drop)]
pub struct Calm {
    pub rest: Rest,
    pub still: Still,
}

// Both in a round.
#[derive(Drop)]
pub struct Busy {
    pub round: Round,
    pub going: Going,
}

// A state of one side.
pub trait State {
    fn numbers(&self) -> Numbers;
}

// The directions and the finest level of the package's shape; no `From`, as neither type is of this crate.
fn frame_of(shape: Shape) -> Frame {
    Frame {
        n: shape.n,
        finest: shape.finest,
    }
}

impl State for Rest {
    fn numbers(&self) -> Numbers {
        Numbers::at_rest(frame_of(self.shape()), self.boxes(), self.rounds())
    }
}

impl State for Round {
    fn numbers(&self) -> Numbers {
        Numbers {
            chosen: Chosen::of(self.chosen().members()),
            points: self.points(),
            ..Numbers::at_rest(frame_of(self.shape()), self.boxes(), self.rounds())
        }
    }
}

impl State for Still {
    fn numbers(&self) -> Numbers {
        Numbers::at_rest(self.frame, self.boxes, self.rounds)
    }
}

impl State for Going {
    fn numbers(&self) -> Numbers {
        Numbers {
            chosen: Chosen::of(self.chosen.iter().copied()),
            points: self.points,
            ..self.before.numbers()
        }
    }
}
