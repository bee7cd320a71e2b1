// A search at rest, and a round of it. Neither can be copied.
// That a table is its own is a condition of inner calls and no field here: a value that held the fact would hold the table, which the caller lends at each call.
ghost use Rattle.std.specs.Prelude.{◌≡◌, ◌+◌, ◌*◌, ◌<◌, ◌≤◌};
ghost use Rattle.ranks.specs.Ranks.{ranks};
ghost use Rattle.search.specs.Counts.{points_of};

use ranks::rank_set::RankSet;
use table::shape::Shape;

pub mod read;

// At rest: the boxes are the rows 0 up to `boxes`, and a round can be opened.
#[derive(Drop)]
pub struct Rest {
    pub(crate) shape: Shape,
    pub(crate) boxes: usize,
    pub(crate) rounds: usize,
    ghost few: { (2 * rounds < boxes) × (boxes ≤ 65535) },
}

// In a round: the rows from `boxes` on, as many as there are points, wait or have their answers.
#[derive(Drop)]
pub struct Round {
    pub(crate) shape: Shape,
    pub(crate) boxes: usize,
    pub(crate) rounds: usize,
    pub(crate) chosen: RankSet,
    pub(crate) points: usize,
    ghost few: { (2 * rounds < boxes) × (2 ≤ points) × (boxes + points ≤ 65535) },
    ghost counted: { points ≡ points_of shape.n (ranks chosen) },
}
