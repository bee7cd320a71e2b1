// Whether a table is a round's own, and what is known of one that is.
ghost use Rattle.std.specs.Prelude.{◌≡◌, ℕ, ◌+◌, ◌<◌, ◌≤◌, true, T, length, is_some, None, slice_index_or};
ghost use Rattle.std.proofs.Props.{props};
ghost use Rattle.ranks.specs.Ranks.{ranks};
ghost use Rattle.table.specs.Boxes.{FirstOfRank, Own};
ghost use Rattle.table.proofs.Unique.{first_once, own_once};

use crate::states::Round;
use order::records::Candidate;
use ranks::rank_set::RANKS;
use table::rows::Row;

mod own;

// A round and a table of its own, with the first box of each rank that can be cut, in an array as `table` gives it.
#[derive(Drop)]
pub(crate) struct Looked<'a> {
    pub round: &'a Round,
    pub table: &'a [Row],
    pub firsts: [Option<Candidate>; RANKS],
    ghost own: { Own round.now.shape.n round.now.shape.finest round.now.boxes table.now } by { own_once round.now.shape.n round.now.shape.finest round.now.boxes table.now },
    ghost rows: { round.now.boxes + round.now.points ≤ length table.now },
    ghost found: { (r : ℕ) → r < 114 → FirstOfRank round.now.shape.n round.now.shape.finest round.now.boxes table.now r (slice_index_or firsts r None) } by { Prim.hlevel (props, first_once) },
    ghost present: { (q : ℕ) → q < 114 → T (ranks round.now.chosen q) → is_some (slice_index_or firsts q None) ≡ true } by { Prim.hlevel props },
}
