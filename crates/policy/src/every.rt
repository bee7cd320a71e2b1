// The policy that chooses each filled rank.
ghost use Rattle.policy.specs.Levels.{filled};
ghost use Rattle.std.proofs.Common.{rules};

use crate::front::Front;
use crate::policy::Policy;
use ranks::rank_set::RankSet;

#[derive(Clone, Copy)]
pub struct Every {}

impl Policy for Every {
    ghost chosen = { λ _ f. filled f };

    ghost sound = { Prim.search rules };

    ghost reaches = { Prim.search rules };

    fn choose(&self, front: &Front) -> RankSet {
        front.filled()
    }
}
