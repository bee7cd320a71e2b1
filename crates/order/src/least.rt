// The first of several records, found in one way for every kind of them.
ghost use Rattle.std.specs.Prelude.{◌≡◌, ℕ, length, MatchOption};
ghost use Rattle.order.specs.First.{FirstOf, IsFirst};
ghost use Rattle.order.specs.Keys.{KeyLaws};

use crate::ordered::Ordered;

// Where the first of some records stands, of equals the earliest place; none where there is no record.
pub fn least<T: Ordered>(records: &[T]) -> Option<usize>
    ensures first { MatchOption result (length records.now ≡ 0) (λ i. IsFirst (λ a b. T.before (T.key a) (T.key b)) records.now i) }
    ensures only { MatchOption result (length records.now ≡ 0) (λ i. (j : ℕ) → IsFirst (λ a b. T.before (T.key a) (T.key b)) records.now j → j ≡ i) }
    ensures laws { KeyLaws T.key (λ a b. T.before (T.key a) (T.key b)) }
{
    let (mut best, later) = records.split_first()?;
    // Tried with the library's `min_by_key`: that the earliest of equals is taken stays open there.
    let mut first = 0;
    for (i, record) in later.iter().enumerate() {
        if record.precedes(best) {
            best = record;
            first = i + 1;
        }
    }
    Some(first)
}

// The first of some records, or none where there is no record.
pub fn first_of<T: Ordered + Copy>(records: &[T]) -> Option<T>
    ensures { FirstOf (λ a b. T.before (T.key a) (T.key b)) records.now result }
{
    let i = least(records)?;
    Some(records[i])
}
