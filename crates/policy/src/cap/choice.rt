// Making a cap, and what it chooses: the lowest of the other policy's ranks.
ghost use Rattle.std.specs.Prelude.{◌≡◌, ◌≤◌, Err};
ghost use Rattle.ranks.specs.Ranks.{lowest_of};
ghost use Rattle.refusal.specs.Checks.{Check, Gives};
ghost use Rattle.refusal.specs.declared.Refusal.TheVariants.{CapOutOfRange};
ghost use Rattle.policy.specs.Capped.{capped_reaches};
ghost use Rattle.std.proofs.Common.{rules};

use super::{Cap, Most};
use crate::front::Front;
use crate::policy::Policy;
use ranks::rank_set::RankSet;
use refusal::Refusal;

impl<P> Cap<P> {
    // A cap of another policy.
    pub fn of(most: Most, inner: P) -> Cap<P>
        ensures { (result.most ≡ most) × (result.inner ≡ inner) }
    {
        Cap { most, inner }
    }

    // A cap of 1 to 114 ranks; with any other number the policy comes back beside the refusal.
    pub fn new(most: u8, inner: P) -> Result<Cap<P>, (Refusal, P)>
        ensures { Check ((1 ≤ most) × (most ≤ 114)) (result ≡ Err (CapOutOfRange, inner)) (Gives result (λ c. (c.most.number ≡ most) × (c.inner ≡ inner))) }
    {
        match Most::try_from(most) {
            Ok(most) => Ok(Cap { most, inner }),
            Err(why) => Err((why, inner)),
        }
    }
}

impl<P: Policy> Policy for Cap<P> {
    ghost chosen = { λ c f. lowest_of c.most.number (P.Policy.chosen c.inner f) };

    ghost sound = { Prim.search rules };

    ghost reaches = { λ c f. capped_reaches f (P.Policy.chosen c.inner f) c.most.number c.most.form.0 (P.Policy.sound c.inner f) (P.Policy.reaches c.inner f) };

    fn choose(&self, front: &Front) -> RankSet {
        self.inner
            .choose(front)
            .lowest(usize::from(self.most.number))
    }
}
