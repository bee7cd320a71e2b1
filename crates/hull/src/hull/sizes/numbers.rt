// The numbers that the conditions compare.
ghost use Rattle.std.specs.Prelude.{◌≡◌, ◌-◌, pos, ◌+ℤ◌, ◌-ℤ◌, neg_ℤ, ◌≤ℤ◌};
ghost use Rattle.hull.specs.Values.{least, margin, past_in, size, value};

use super::Sizes;
use crate::hull::WHOLE;
use grid::interval::DEEPEST;
use order::answer::Answer;

impl Sizes<'_> {
    // The least reading, or 0.
    fn least(&self) -> i64
        ensures is { result ≡ least self.now.front.now }
        ensures low { neg_ℤ (pos 1000000000) ≤ℤ result }
        ensures high { result ≤ℤ pos 1000000000 }
    {
        self.front
            .readings()
            .map_or(0, |(least, _)| i64::from(least))
    }

    // What "not feasible" counts for: the greatest reading plus 1, or 0.
    fn past(&self) -> i64
        ensures { result ≡ past_in self.now.front.now.readings }
    {
        self.front
            .readings()
            .map_or(0, |(_, greatest)| i64::from(greatest) + 1)
    }

    // The value of a rank's entry.
    pub(super) fn value(&self, rank: usize) -> i64
        ensures is { result ≡ value self.now.front.now rank }
        ensures low { neg_ℤ (pos 1000000000) ≤ℤ result }
        ensures high { result ≤ℤ pos 1000000001 }
    {
        match self.front.entry(rank) {
            Some(Answer::Reading(x)) => i64::from(x),
            Some(Answer::NotFeasible) => self.past(),
            None => 0,
        }
    }

    // How much the value of a is above that of b.
    pub(super) fn rise(&self, a: usize, b: usize) -> i64
        ensures is { let f = self.now.front.now in result ≡ value f a -ℤ value f b }
        ensures low { neg_ℤ (pos 2000000001) ≤ℤ result }
        ensures high { result ≤ℤ pos 2000000001 }
    {
        self.value(a) - self.value(b)
    }

    // The size of a rank.
    pub(super) fn size(&self, rank: usize) -> i64
        ensures is { result ≡ pos (size self.now.front.now rank) }
        ensures high { result ≤ℤ pos 1162261467 }
    {
        let deepest = usize::from(DEEPEST);
        let finer = deepest - self.front.level(rank).min(deepest);
        3i64.pow(finer as u32)
    }

    // How much larger the size of a is than that of b, or 0 where it is not.
    pub(super) fn run(&self, a: usize, b: usize) -> i64
        ensures is { let f = self.now.front.now in result ≡ pos (size f a - size f b) }
        ensures high { result ≤ℤ pos 1162261467 }
    {
        (self.size(a) - self.size(b)).max(0)
    }

    // The share of the least reading.
    fn margin(&self) -> i64
        ensures is { result ≡ margin self.now.hull.share self.now.front.now }
        ensures low { pos 0 ≤ℤ result }
        ensures high { result ≤ℤ pos 1000000000 }
    {
        (self.least().unsigned_abs() * u64::from(self.hull.share) / u64::from(WHOLE)) as i64
    }

    // How much the value of a rank is above the least reading less the margin.
    pub(super) fn over(&self, rank: usize) -> i64
        ensures is { let f = self.now.front.now in result ≡ value f rank -ℤ least f +ℤ margin self.now.hull.share f }
        ensures low { neg_ℤ (pos 3000000001) ≤ℤ result }
        ensures high { result ≤ℤ pos 3000000001 }
    {
        self.value(rank) - self.least() + self.margin()
    }
}
