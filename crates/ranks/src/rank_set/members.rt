// Which ranks are in a set: the empty set, the test, the insertion, equality.
ghost use Rattle.std.specs.Prelude.{◌≡◌, ◌<◌, ◌≤◌, true, Decides};
ghost use Rattle.ranks.specs.Ranks.{ranks, none, with, words_equal};
ghost use Rattle.std.specs.Cmp.Rules.{comparing};
ghost use Rattle.std.proofs.Common.{rules, arith};

use super::{RANKS, RankSet};

impl RankSet {
    // No rank.
    pub fn empty() -> Self
        ensures { ranks result ≡ none }
    {
        RankSet { low: 0, high: 0 }
    }

    // Whether the rank is in the set.
    pub fn contains(&self, rank: usize) -> bool
        ensures value { result ≡ ranks self.now rank }
        ensures bounded { result ≡ true → rank < 114 }
    {
        if rank < 64 {
            self.low >> rank & 1 == 1
        } else if rank < RANKS {
            self.high >> (rank - 64) & 1 == 1
        } else {
            false
        }
    }

    // Puts a rank in; a number from 114 on is no rank, and changes nothing.
    // A set is filled by a loop of this: the library's `FromIterator` takes an allocator and may find no memory, and a set has neither.
    pub fn insert(&mut self, rank: usize)
        ensures put { rank < 114 → ranks self.new ≡ with (ranks self.old) rank }
        ensures same { 114 ≤ rank → self.new ≡ self.old }
    {
        if rank < 64 {
            self.low |= 1 << rank;
        } else if rank < RANKS {
            self.high |= 1 << (rank - 64);
        }
    }
}

// Two sets are equal where they have the same ranks; a derived `==` would speak of the words alone.
impl PartialEq for RankSet {
    ghost eq = { words_equal };

    ghost laws = { first_of (Prim.search (comparing, rules), Prim.grind (arith, Self.row.coded.inj)) };

    fn eq(&self, other: &RankSet) -> bool
        ensures value { result ≡ words_equal self.now other.now }
        ensures same { Decides result (ranks self.now ≡ ranks other.now) }
    {
        (self.low, self.high) == (other.low, other.high)
    }
}
