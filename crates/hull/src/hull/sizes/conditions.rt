// The three conditions that each larger size sets for a smaller one.
ghost use Rattle.std.specs.Prelude.{◌≡◌, ℕ, ◌-◌, ◌<◌, pos, ◌+ℤ◌, ◌-ℤ◌, ◌*ℤ◌, neg_ℤ, ◌≤ℤ◌, Decides, int_le};
ghost use Rattle.policy.specs.Levels.{level};
ghost use Rattle.hull.specs.Optimal.{Chord, Chosen, Taken, Yields};
ghost use Rattle.hull.specs.Values.{least, margin, size, value};
ghost use Rattle.ranks.specs.Ranks.{ranks};
ghost use Rattle.hull.specs.Decide.{hull_ranks};

use super::Sizes;
use ranks::rank_set::RankSet;

// A rise over a run.
#[derive(Clone, Copy)]
struct Slope {
    rise: i64,
    run: i64,
    ghost rise_low: { neg_ℤ (pos 3000000001) ≤ℤ rise },
    ghost rise_high: { rise ≤ℤ pos 3000000001 },
    ghost run_low: { pos 0 ≤ℤ run },
    ghost run_high: { run ≤ℤ pos 1162261467 },
}

impl Slope {
    // Whether it is at most another.
    fn is_at_most(&self, other: &Slope) -> bool
        ensures { result ≡ int_le (self.now.rise *ℤ other.now.run) (other.now.rise *ℤ self.now.run) }
    {
        self.rise * other.run <= other.rise * self.run
    }
}

impl Sizes<'_> {
    // The slope from b up to the larger size a.
    fn slope(&self, a: usize, b: usize) -> Slope
        ensures { let f = self.now.front.now in (result.rise ≡ value f a -ℤ value f b) × (result.run ≡ pos (size f a - size f b)) }
    {
        Slope {
            rise: self.rise(a, b),
            run: self.run(a, b),
        }
    }

    // Whether j's drop to the smaller size s is no steeper than the rise to the larger size i.
    fn is_chord(&self, j: usize, i: usize, s: usize) -> bool
        ensures { let f = self.now.front.now in result ≡ int_le ((value f j -ℤ value f s) *ℤ pos (size f i - size f j)) ((value f i -ℤ value f j) *ℤ pos (size f j - size f s)) }
    {
        self.slope(j, s).is_at_most(&self.slope(i, j))
    }

    // Whether j's drop to each smaller size is no steeper than the rise to i.
    fn under_chords(&self, j: usize, i: usize) -> bool
        ensures { let f = self.now.front.now in Decides result ((s : ℕ) → Taken f s → Chord f j i s) }
    {
        self.taken
            .iter()
            .skip(self.front.level(j))
            .skip(1)
            .copied()
            .flatten()
            .all(|s| self.is_chord(j, i, s.rank))
    }

    // Whether the slope to the larger size i takes j under the least reading by the margin.
    fn is_enough(&self, j: usize, i: usize) -> bool
        ensures { let f = self.now.front.now in Decides result (((value f j -ℤ least f +ℤ margin self.now.hull.share f) *ℤ pos (size f i - size f j)) ≤ℤ (pos (size f j) *ℤ (value f i -ℤ value f j))) }
    {
        let least = Slope {
            rise: self.over(j),
            run: self.size(j),
        };
        least.is_at_most(&self.slope(i, j))
    }

    // Whether j meets the three conditions of the larger size i.
    fn yields(&self, j: usize, i: usize) -> bool
        ensures { Decides result (Yields self.now.hull.share self.now.front.now j i) }
    {
        self.value(i) > self.value(j) && self.is_enough(j, i) && self.under_chords(j, i)
    }

    // Whether j meets the conditions of every larger size.
    fn is_chosen(&self, j: usize) -> bool
        ensures { let f = self.now.front.now in Decides result ((i : ℕ) → Taken f i → level f i < level f j → Yields self.now.hull.share f j i) }
    {
        self.taken
            .iter()
            .take(self.front.level(j))
            .copied()
            .flatten()
            .all(|i| self.yields(j, i.rank))
    }

    // The ranks that the hull chooses: of each level the taken one, where every larger size agrees.
    pub(crate) fn chosen(&self) -> RankSet
        ensures { ranks result ≡ hull_ranks self.now.hull.share self.now.front.now }
    {
        let mut chosen = RankSet::empty();
        for j in self.taken.iter().copied().flatten() {
            if self.is_chosen(j.rank) {
                chosen.insert(j.rank);
            }
        }
        chosen
    }
}
