// Cutting an interval into thirds.
ghost use Rattle.std.specs.Prelude.{◌<◌};
ghost use Rattle.grid.specs.Thirds.{Centred, Partition, ThirdsOf};

use super::Interval;
use super::form::cells_at;

// The low, middle and high third of an interval.
#[derive(Clone, Copy)]
pub struct Thirds {
    pub low: Interval,
    pub middle: Interval,
    pub high: Interval,
}

impl Interval {
    // The thirds of an interval of more than one cell.
    pub fn cut(&self) -> Thirds
        requires { self.now.level < 19 }
        ensures thirds { ThirdsOf self.now result }
        ensures partition { Partition self.now result }
        ensures centred { Centred self.now result }
    {
        let level = self.level + 1;
        let third = cells_at(level);
        Thirds {
            low: Interval {
                first: self.first,
                level,
            },
            middle: Interval {
                first: self.first + third,
                level,
            },
            high: Interval {
                first: self.first + 2 * third,
                level,
            },
        }
    }
}
