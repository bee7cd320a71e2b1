// Opening a round.
ghost use Rattle.std.specs.Prelude.{◌≡◌, ◌≤◌, length, Decides};
ghost use Rattle.ranks.specs.Ranks.{ranks};
ghost use Rattle.search.specs.Calls.{Cleared, Opens, OpensIn, OwnRest};
ghost use Rattle.search.specs.Counts.{points_of};
ghost use Rattle.search.specs.Runs.{LocatedCells};

use crate::states::{Rest, Round};
use policy::policy::Policy;
use ranks::rank_set::RankSet;
use refusal::Refusal;
use table::rows::{Entry, Row};
use table::shape::Shape;

// The most rows that a search uses.
const MOST_ROWS: usize = 65_535;

// The points that chosen ranks ask for: two for each long side.
fn points_of(shape: &Shape, chosen: RankSet) -> usize
    ensures value { result ≡ points_of shape.now.n (ranks chosen) }
    ensures few { result ≤ 1368 }
{
    let mut points = 0;
    for rank in chosen.members() {
        points += 2 * shape.long_sides(rank);
    }
    points
}

// Whether a search may use so many rows of a table.
fn has_room(table: &[Row], rows: usize) -> bool
    ensures { Decides result ((rows ≤ length table.now) × (rows ≤ 65535)) }
{
    rows <= table.len() && rows <= MOST_ROWS
}

// Rows from low up to high become the whole grid, which waits.
fn clear(table: &mut [Row], low: usize, high: usize)
    requires { (low ≤ high) × (high ≤ length table.old) }
    ensures { Cleared low high table.old table.new }
{
    table[low..high].fill(Row::whole(Entry::Waiting));
}

impl Rest {
    // As `open`, where the table is known to be the search's own.
    pub(crate) fn open_in<P: Policy>(
        self,
        policy: &P,
        table: &mut [Row],
    ) -> Result<Round, (Refusal, Rest)>
        requires { OwnRest self table.old }
        ensures { OpensIn (P.Policy.chosen policy.now) self table.old result table.new }
    {
        let front = self.shape.front_of(&table[..self.boxes]);
        let chosen = policy.choose(&front);
        let points = points_of(&self.shape, chosen);
        if points == 0 {
            return Err((Refusal::NothingToCut, self));
        }
        if !has_room(table, self.boxes + points) {
            return Err((Refusal::NoRoom, self));
        }
        clear(table, self.boxes, self.boxes + points);
        Ok(Round {
            shape: self.shape,
            boxes: self.boxes,
            rounds: self.rounds,
            chosen,
            points,
        })
    }

    // Uses up the search at rest and gives a round; a refusal hands the search back.
    pub fn open<P: Policy>(self, policy: &P, table: &mut [Row]) -> Result<Round, (Refusal, Rest)>
        ensures outcome { Opens (P.Policy.chosen policy.now) self table.old result table.new }
        ensures located { LocatedCells result table.new }
    {
        if !self.shape.owns(table, self.boxes) {
            return Err((Refusal::NotOwnTable, self));
        }
        self.open_in(policy, table)
    }
}
