// How an interval is written.
ghost use Rattle.std.specs.Prelude.{Some};
ghost use Rattle.grid.specs.Text.{interval_text};

use super::Interval;
use std::fmt;

// Its first cell and its level, with a slash between.
impl fmt::Display for Interval {
    ghost output = { λ i. Some (interval_text i) };

    fn fmt<W: fmt::Write>(&self, f: &mut fmt::Formatter<W>) -> fmt::Result {
        let first = self.first;
        let level = self.level;
        write!(f, "{first}/{level}")
    }
}
