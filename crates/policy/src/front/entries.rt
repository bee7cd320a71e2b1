// Reading a front.
ghost use Rattle.std.specs.Prelude.{◌≡◌};
ghost use Rattle.ranks.specs.Ranks.{ranks};
ghost use Rattle.policy.specs.Levels.{entry, filled, level};

use super::Front;
use order::answer::Answer;
use ranks::rank_set::RankSet;

impl Front {
    // The number of directions.
    pub fn directions(&self) -> u8
        ensures { result ≡ self.now.directions }
    {
        self.directions
    }

    // The entry of a rank; past the last rank there is none.
    pub fn entry(&self, rank: usize) -> Option<Answer>
        ensures { result ≡ entry self.now rank }
    {
        self.entries.get(rank).copied().flatten()
    }

    // The ranks with a filled entry.
    pub(crate) fn filled(&self) -> RankSet
        ensures { ranks result ≡ filled self.now }
    {
        let mut chosen = RankSet::empty();
        for (rank, entry) in self.entries.iter().enumerate() {
            if entry.is_some() {
                chosen.insert(rank);
            }
        }
        chosen
    }

    // The least and the greatest reading of all boxes, or none.
    pub fn readings(&self) -> Option<(i32, i32)>
        ensures { result ≡ self.now.readings }
    {
        self.readings
    }

    // The level of a rank.
    pub fn level(&self, rank: usize) -> usize
        ensures { result ≡ level self.now rank }
    {
        rank / usize::from(self.directions)
    }
}
