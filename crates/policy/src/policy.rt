// A policy: which ranks of a front a round cuts.
ghost use Rattle.std.specs.Prelude.{◌≡◌};
ghost use Rattle.policy.specs.Rules.{OnlyFilled, ReachesLargest};
ghost use Rattle.policy.specs.declared.front.Front.{Front};
ghost use Rattle.ranks.specs.Ranks.{Ranks, ranks};

use crate::front::Front;
use ranks::rank_set::RankSet;

pub trait Policy {
    // what it means: the ranks that it chooses for each front
    ghost chosen: { Self → Front → Ranks };

    // The chosen ranks of a front.
    fn choose(&self, front: &Front) -> RankSet
        ensures { ranks result ≡ chosen self.now front.now };

    // every chosen rank has a filled entry
    ghost sound: { (p : Self) (f : Front) → OnlyFilled f (chosen p f) };

    // if any entry is filled, some chosen rank has the level of the lowest filled rank
    ghost reaches: { (p : Self) (f : Front) → ReachesLargest f (chosen p f) };
}
