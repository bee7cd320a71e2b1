// The sizes of a front, as a hull compares them.
ghost use Rattle.std.specs.Prelude.{◌≡◌};
ghost use Rattle.hull.specs.TakenRanks.{TakenRanks, TakenRanks-prop};

mod conditions;
mod numbers;

use super::Hull;
use order::records::RankEntry;
use policy::front::Front;
use policy::front::levels::LEVELS;
use std::array;

// An array by level, since there is no heap here.
// A hull and a front, with the rank that is taken for each level, or none where no rank of it is filled.
#[derive(Drop)]
pub(crate) struct Sizes<'a> {
    hull: Hull,
    front: &'a Front,
    taken: [Option<RankEntry>; LEVELS],
    ghost of_front: { TakenRanks front.now taken } by { TakenRanks-prop front.now taken },
}

impl<'a> Sizes<'a> {
    // The sizes of a front.
    pub(crate) fn of(hull: Hull, front: &'a Front) -> Sizes<'a>
        ensures hull { result.hull ≡ hull }
        ensures front { result.front.now ≡ front.now }
    {
        Sizes {
            hull,
            front,
            taken: array::from_fn(|level| front.first_of_level(level)),
        }
    }
}
