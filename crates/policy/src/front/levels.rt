// The rank that goes first of each level.
ghost use Rattle.std.specs.Prelude.{◌≤◌, length};
ghost use Rattle.order.specs.First.{FirstAmong};
ghost use Rattle.order.specs.Records.{rank_before};
ghost use Rattle.policy.specs.Levels.{FilledBetween, FirstOfLevel};

use super::Front;
use order::answer::Answer;
use order::least::least;
use order::records::RankEntry;

// The levels at which a box can be cut.
pub const LEVELS: usize = 19;

// The first of the filled ranks from low up to high.
fn first_between(entries: &[Option<Answer>], low: usize, high: usize) -> Option<RankEntry>
    requires { (low ≤ high) × (high ≤ length entries.now) }
    ensures { FirstAmong rank_before (FilledBetween entries.now low high) result }
{
    let ranks = &entries[low..high];
    let i = least(ranks)?;
    ranks[i].map(|answer| RankEntry {
        answer,
        rank: low + i,
    })
}

impl Front {
    // The rank of a level whose answer goes first, the lower rank on a tie; none where no rank of it is filled.
    pub fn first_of_level(&self, level: usize) -> Option<RankEntry>
        ensures { FirstOfLevel self.now level result }
    {
        if level >= LEVELS {
            return None;
        }
        let directions = usize::from(self.directions);
        let low = directions * level;
        first_between(&self.entries, low, low + directions)
    }
}
