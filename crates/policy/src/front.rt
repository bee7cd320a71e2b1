// A front: what a policy sees of a search.
ghost use Rattle.std.specs.Prelude.{◌≡◌, ◌*◌, ◌≤◌, true, length};
ghost use Rattle.policy.specs.Fronts.{AllFit, EmptyFrom, ends_fit};

use order::answer::Answer;
use ranks::rank_set::RANKS;

pub mod build;
pub mod entries;
pub mod levels;

// An array by rank, since there is no heap below `report`.
// For each rank an entry: empty, or the answer of the first box of that rank that can be cut.
// Beside them the least and the greatest reading of all boxes, or none where no box has a reading.
#[derive(Drop)]
pub struct Front {
    directions: u8,
    entries: [Option<Answer>; RANKS],
    readings: Option<(i32, i32)>,
    ghost some: { 1 ≤ directions },
    ghost few: { directions ≤ 6 },
    ghost long: { length entries ≡ 114 },
    ghost empty: { EmptyFrom (19 * directions) entries },
    ghost ends: { ends_fit readings ≡ true },
    ghost fits: { AllFit readings entries },
}
