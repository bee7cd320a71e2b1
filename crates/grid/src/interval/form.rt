// Making an interval of two numbers, its length and its middle.
ghost use Rattle.std.specs.Prelude.{◌≡◌, ◌≤◌, MatchOption};
ghost use Rattle.grid.specs.Grid.{IsInterval, cells, cells_at, middle_of};

use super::{CELLS, DEEPEST, Interval};

// The cells of an interval of a level. Public it would ask for a level below 20, so others say this line in their own types.
pub(crate) fn cells_at(level: u8) -> u32
    requires { level ≤ 19 }
    ensures value { result ≡ cells_at level }
    ensures some { 1 ≤ result }
    ensures most { result ≤ cells }
{
    3u32.pow((DEEPEST - level) as u32)
}

impl Interval {
    // The interval of a first cell and a level, or none where they are no interval.
    pub fn new(first: u32, level: u8) -> Option<Interval>
        ensures { MatchOption result (IsInterval first level → ⊥) (λ i. (i.first ≡ first) × (i.level ≡ level)) }
    {
        if level > DEEPEST {
            return None;
        }
        let length = cells_at(level);
        if first % length == 0 && first <= CELLS - length {
            Some(Interval { first, level })
        } else {
            None
        }
    }

    // All cells of a direction.
    pub fn whole() -> Interval
        ensures { (result.first ≡ 0) × (result.level ≡ 0) }
    {
        Interval { first: 0, level: 0 }
    }

    // The count of its cells.
    pub fn length(&self) -> u32
        ensures value { result ≡ cells_at self.now.level }
        ensures some { 1 ≤ result }
    {
        cells_at(self.level)
    }

    // Its middle cell.
    pub fn middle(&self) -> u32
        ensures { result ≡ middle_of self.now.first self.now.level }
    {
        self.first + (self.length() - 1) / 2
    }
}
