// The directions and the finest level of a search, and what follows of these alone.
use super::stop::Cause;
use std::fmt;

#[derive(Clone, Copy, Debug, PartialEq, Eq)]
pub struct Frame {
    pub n: u8,
    pub finest: u8,
}

impl Frame {
    // The same, as a check that a search may have it.
    pub fn allowed(self) -> Result<Frame, Cause> {
        if !matches!(self.n, 1..=6) {
            return Err(Cause::Directions);
        }
        if !matches!(self.finest, 1..=19) {
            return Err(Cause::Finest);
        }
        Ok(self)
    }

    // How many directions there are.
    pub fn directions(self) -> usize {
        usize::from(self.n)
    }

    // The rank of finished boxes.
    pub fn end(self) -> usize {
        self.directions().saturating_mul(usize::from(self.finest))
    }

    // The level of a rank.
    pub fn level(self, rank: usize) -> usize {
        rank.checked_div(self.directions()).unwrap_or(0)
    }

    // The points of some ranks: two for each long side.
    pub fn points(self, ranks: &[usize]) -> usize {
        ranks.iter().fold(0usize, |points, rank| {
            let short = rank.checked_rem(self.directions()).unwrap_or(0);
            let long = self.directions().saturating_sub(short);
            points.saturating_add(long).saturating_add(long)
        })
    }
}

impl fmt::Display for Frame {
    fn fmt<W: fmt::Write>(&self, f: &mut fmt::Formatter<W>) -> fmt::Result {
        let Frame { n, finest } = *self;
        write!(f, "n {n} finest {finest}")
    }
}
