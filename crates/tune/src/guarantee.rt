// How long the sides of boxes are: as they stand, and at most after so many rounds.
ghost use Rattle.std.specs.Prelude.{◌≡◌, ◌+◌, ◌<◌, ◌≤◌, length, Ok, Err};
ghost use Rattle.grid.specs.Grid.{cells_at};
ghost use Rattle.search.specs.Runs.{rounds_for};
ghost use Rattle.tune.specs.Sides.{AllWithin};

use crate::cell::longest_side_of;
use crate::settings::FINEST;
use grid::interval::DEEPEST;
use refusal::Refusal;
use table::rows::Row;

// The most cells along a side of any box.
pub fn longest_side(boxes: &[Row]) -> Result<u32, Refusal>
    ensures { elim result [ Ok most ↦ AllWithin (length boxes.now) boxes.now most | Err _ ↦ Unit {0} ] }
{
    let mut longest = 0;
    for row in boxes {
        longest = longest_side_of(row)?.max(longest);
    }
    Ok(longest)
}

// The greatest level, up to the finest, for which so many rounds of two directions are enough.
// Level k asks for 3 · (1 + 9 + .. + 9^(k-1)) rounds; then no side is of a lower level, whatever the policy.
pub fn level_after(rounds: usize) -> u8
    ensures few { result ≤ 6 }
    ensures enough { rounds_for 2 result ≤ rounds }
    ensures greatest { result < 6 → rounds < rounds_for 2 (result + 1) }
{
    let mut next = 3;
    let mut more = 27;
    for level in 0..FINEST {
        if rounds < next {
            return level;
        }
        next += more;
        more *= 9;
    }
    FINEST
}

// The cells of a side of a level.
pub fn side_at(level: u8) -> u32
    requires { level ≤ 19 }
    ensures { result ≡ cells_at level }
{
    3u32.pow((DEEPEST - level) as u32)
}
