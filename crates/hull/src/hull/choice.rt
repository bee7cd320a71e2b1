// The ranks that a hull chooses.
ghost use Rattle.std.specs.Prelude.{◌≡◌, ℕ, true, ◌↔◌};
ghost use Rattle.ranks.specs.Ranks.{ranks};
ghost use Rattle.hull.specs.Decide.{hull_ranks};
ghost use Rattle.hull.specs.Optimal.{BySlope, Chosen, ProductsFit};
ghost use Rattle.hull.specs.Chosen.{hull_sound, hull_reaches};

use super::Hull;
use super::sizes::Sizes;
use policy::front::Front;
use policy::policy::Policy;
use ranks::rank_set::RankSet;

impl Policy for Hull {
    ghost chosen = { λ h f. hull_ranks h.share f };

    ghost sound = { λ p f r h. hull_sound p.share f r h };

    ghost reaches = { λ p f r w. hull_reaches p.share f r w };

    // Of each level the rank that is taken for it, where some slope makes it potentially optimal.
    fn choose(&self, front: &Front) -> RankSet
        ensures set { ranks result ≡ hull_ranks self.now.share front.now }
        ensures conditions { (j : ℕ) → (ranks result j ≡ true) ↔ Chosen self.now.share front.now j }
        ensures slopes { (j : ℕ) → (ranks result j ≡ true) ↔ BySlope self.now.share front.now j }
        ensures products { ProductsFit self.now.share front.now }
    {
        Sizes::of(*self, front).chosen()
    }
}
