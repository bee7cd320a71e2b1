// What can be read of a search at rest and of a round: two types, each with facts of its own.
// A part that both share would be read through a third name, so each has its readers.
ghost use Rattle.std.specs.Prelude.{◌≡◌};

use super::{Rest, Round};
use ranks::rank_set::RankSet;
use table::shape::Shape;

impl Rest {
    // The directions and the finest level.
    pub fn shape(&self) -> Shape
        ensures { result ≡ self.now.shape }
    {
        self.shape
    }

    // The number of boxes: rows 0 up to it are the search's boxes.
    pub fn boxes(&self) -> usize
        ensures { result ≡ self.now.boxes }
    {
        self.boxes
    }

    // The number of closed rounds.
    pub fn rounds(&self) -> usize
        ensures { result ≡ self.now.rounds }
    {
        self.rounds
    }
}

impl Round {
    // The directions and the finest level.
    pub fn shape(&self) -> Shape
        ensures { result ≡ self.now.shape }
    {
        self.shape
    }

    // The number of boxes: rows 0 up to it are the search's boxes.
    pub fn boxes(&self) -> usize
        ensures { result ≡ self.now.boxes }
    {
        self.boxes
    }

    // The number of closed rounds.
    pub fn rounds(&self) -> usize
        ensures { result ≡ self.now.rounds }
    {
        self.rounds
    }

    // The chosen ranks.
    pub fn chosen(&self) -> RankSet
        ensures { result ≡ self.now.chosen }
    {
        self.chosen
    }

    // The number of points: the rows from the boxes on, as many as it says, are theirs.
    pub fn points(&self) -> usize
        ensures { result ≡ self.now.points }
    {
        self.points
    }
}
