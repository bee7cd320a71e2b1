// How many ranks are in a set, the lowest of them, and the m lowest.
ghost use Rattle.std.specs.Prelude.{◌≡◌, ◌<◌, ◌≤◌, min, MatchOption};
ghost use Rattle.ranks.specs.Ranks.{ranks, none, without, size, Lowest, lowest_of};

use super::RankSet;

impl RankSet {
    // How many ranks are in the set.
    pub fn count(&self) -> u32
        ensures value { result ≡ size (ranks self.now) }
        ensures bound { result ≤ 114 }
    {
        self.low.count_ones() + self.high.count_ones()
    }

    // The lowest rank, or none if the set is empty.
    pub fn first(&self) -> Option<usize>
        ensures { MatchOption result (ranks self.now ≡ none) (λ k. Lowest (ranks self.now) k × (k < 114)) }
    {
        if self.low != 0 {
            Some(self.low.trailing_zeros() as usize)
        } else if self.high != 0 {
            Some(64 + self.high.trailing_zeros() as usize)
        } else {
            None
        }
    }

    // Takes the lowest rank out.
    pub fn pop_first(&mut self) -> Option<usize>
        ensures lowest { MatchOption result (ranks self.old ≡ none) (λ k. Lowest (ranks self.old) k × (k < 114)) }
        ensures rest { MatchOption result (self.new ≡ self.old) (λ k. ranks self.new ≡ without (ranks self.old) k) }
    {
        let rank = self.first()?;
        if self.low != 0 {
            self.low &= self.low - 1;
        } else if self.high != 0 {
            self.high &= self.high - 1;
        }
        Some(rank)
    }

    // The m lowest ranks, or all if there are no more than m.
    pub fn lowest(self, m: usize) -> RankSet
        ensures value { ranks result ≡ lowest_of m (ranks self) }
        ensures size { size (ranks result) ≡ min m (size (ranks self)) }
    {
        if self.count() as usize <= m {
            return self;
        }
        let mut chosen = RankSet::empty();
        for rank in self.members().take(m) {
            chosen.insert(rank);
        }
        chosen
    }
}
