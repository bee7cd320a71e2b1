// Looking whether a table is a round's own.
ghost use Rattle.std.specs.Prelude.{◌≡◌, ℕ, ◌<◌, true, T, is_some, None, Decides, slice_index_or};
ghost use Rattle.ranks.specs.Ranks.{ranks};
ghost use Rattle.search.specs.Calls.{OwnRound};
ghost use Rattle.refusal.specs.declared.Refusal.TheVariants.{NotOwnTable};

use super::Looked;
use crate::states::Round;
use order::records::Candidate;
use ranks::rank_set::{RANKS, RankSet};
use refusal::Refusal;
use table::rows::Row;

// Whether each chosen rank has a first box.
fn all_present(chosen: &RankSet, firsts: &[Option<Candidate>; RANKS]) -> bool
    ensures { Decides result ((q : ℕ) → q < 114 → T (ranks chosen.now q) → is_some (slice_index_or firsts.now q None) ≡ true) }
{
    firsts
        .iter()
        .enumerate()
        .all(|(rank, first)| first.is_some() || !chosen.contains(rank))
}

impl Round {
    // The round with a table of its own, or the refusal of another's.
    pub(crate) fn look<'a>(&'a self, table: &'a [Row]) -> Result<Looked<'a>, Refusal>
        ensures { elim result [ Ok looked ↦ (looked.round.now ≡ self.now) × (looked.table.now ≡ table.now) × OwnRound self.now table.now | Err why ↦ (why ≡ NotOwnTable) × (OwnRound self.now table.now → ⊥) ] }
    {
        if table.len() < self.boxes + self.points || !self.shape.owns(table, self.boxes) {
            return Err(Refusal::NotOwnTable);
        }
        let firsts = self.shape.firsts(&table[..self.boxes]);
        if !all_present(&self.chosen, &firsts) {
            return Err(Refusal::NotOwnTable);
        }
        Ok(Looked {
            round: self,
            table,
            firsts,
        })
    }
}
