// The rank of a box, and the first box of each rank that can be cut.
ghost use Rattle.std.specs.Prelude.{◌≡◌, ℕ, ◌<◌, ◌≤◌, length, Some, None, slice_index_or};
ghost use Rattle.order.specs.First.{FirstAmong, HeldOr};
ghost use Rattle.order.specs.Records.{candidate_before};
ghost use Rattle.table.specs.Boxes.{FirstOfRank};
ghost use Rattle.table.specs.Rows.{rank};

use crate::rows::Row;
use crate::shape::Shape;
use order::least::first_of;
use order::records::Candidate;
use ranks::rank_set::RANKS;

// The first of what is held, if anything, and a new candidate.
fn earlier(held: Option<Candidate>, new: Candidate) -> Candidate
    ensures { FirstAmong candidate_before (HeldOr held new) (Some result) }
{
    let Some(old) = held else {
        return new;
    };
    match first_of(&[old, new]) {
        Some(first) => first,
        None => new,
    }
}

impl Shape {
    // The rank of a box: the sum of its levels.
    pub fn rank_of(&self, row: &Row) -> usize
        ensures { result ≡ rank self.now.n row.now }
    {
        let mut rank = 0;
        for span in &row.spans[..usize::from(self.n)] {
            rank += usize::from(span.level);
        }
        rank
    }

    // The first box of each rank that can be cut, in an array by rank since there is no heap here, in one pass; rows without an answer are passed over.
    pub fn firsts(&self, boxes: &[Row]) -> [Option<Candidate>; RANKS]
        ensures { (r : ℕ) → r < 114 → FirstOfRank self.now.n self.now.finest (length boxes.now) boxes.now r (slice_index_or result r None) }
    {
        let below = usize::from(self.n) * usize::from(self.finest);
        let mut firsts = [None; RANKS];
        for (row, held) in boxes.iter().enumerate() {
            let rank = self.rank_of(held);
            if rank < below {
                if let Some(answer) = held.entry.shown() {
                    firsts[rank] = Some(earlier(firsts[rank], Candidate { answer, row }));
                }
            }
        }
        firsts
    }
}
