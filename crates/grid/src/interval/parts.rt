// The two numbers that an interval is made of.
ghost use Rattle.std.specs.Prelude.{◌≡◌};

use super::Interval;

impl Interval {
    // Its first cell.
    pub fn first(&self) -> u32
        ensures { result ≡ self.now.first }
    {
        self.first
    }

    pub fn level(&self) -> u8
        ensures { result ≡ self.now.level }
    {
        self.level
    }
}
