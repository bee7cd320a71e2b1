// The ranks of a set one by one, in rising order.
ghost use Rattle.std.specs.Prelude.{◌≡◌, ◌<◌, MatchOption};
ghost use Rattle.ranks.specs.Ranks.{ranks, none, without, size, Lowest};
ghost use Rattle.ranks.specs.Rising.{to_come};
ghost use Rattle.std.specs.Iterator.{at_most};

use super::RankSet;

// The ranks that are still to come.
#[derive(Clone, Copy)]
pub struct Members {
    rest: RankSet,
}

impl RankSet {
    // The ranks of the set, the lowest first.
    pub fn members(self) -> Members
        ensures { to_come result ≡ ranks self }
    {
        Members { rest: self }
    }
}

impl Iterator for Members {
    type Item = usize;

    ghost next_gives = { λ s r t. MatchOption r ((to_come s ≡ none) × (t ≡ s)) (λ k. Lowest (to_come s) k × (k < 114) × (to_come t ≡ without (to_come s) k)) };

    ghost remaining = { λ s. at_most (size (to_come s)) };

    fn next(&mut self) -> Option<usize> {
        self.rest.pop_first()
    }
}
