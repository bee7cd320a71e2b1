// Locating a point of a round.
ghost use Rattle.std.specs.Prelude.{◌≡◌, ℕ, ◌+◌, ◌-◌, ◌*◌, ◌/◌, ◌%◌, ◌<◌, ◌≤◌, true, length, None, slice_index, slice_index_or};
ghost use Rattle.grid.specs.Grid.{IsInterval};
ghost use Rattle.ranks.specs.Ranks.{ranks};
ghost use Rattle.table.specs.Boxes.{FirstOfRank, Long};
ghost use Rattle.table.specs.Rows.{first_of, level_of, rank};
ghost use Rattle.table.specs.Sums.{bit, sum};
ghost use Rattle.search.specs.Calls.{Locates, LocatesIn, OwnRound};
ghost use Rattle.search.specs.Counts.{points_below};
ghost use Rattle.search.specs.Points.{Coordinate, Moved, high, is_long, low};

use crate::cutting::interval_in;
use crate::look::Looked;
use crate::side::Side;
use crate::states::Round;
use grid::interval::Interval;
use refusal::Refusal;
use table::rows::Row;
use table::shape::Shape;

impl Round {
    // The chosen rank that a point is of, and the point's number in that rank.
    fn rank_of(&self, point: usize) -> (usize, usize)
        requires { point < self.now.points }
        ensures chosen { (result.0 < 114) × (ranks self.now.chosen result.0 ≡ true) }
        ensures number { point ≡ points_below self.now.shape.n (ranks self.now.chosen) result.0 + result.1 }
        ensures among { result.1 < 2 * (self.now.shape.n - result.0 % self.now.shape.n) }
    {
        let mut start = 0;
        for rank in self.chosen.members() {
            let points = 2 * self.shape.long_sides(rank);
            if point - start < points {
                return (rank, point - start);
            }
            start += points;
        }
        unreachable()
    }
}

// The long side of a box of a level, by its number among the long sides.
fn long_side(row: &Row, shape: &Shape, level: usize, number: usize) -> usize
    requires { (level ≡ rank shape.now.n row.now / shape.now.n) × (number < sum shape.now.n (λ e. bit (is_long shape.now.n row.now e))) }
    ensures { Long shape.now.n row.now result × (number ≡ sum result (λ e. bit (is_long shape.now.n row.now e))) }
{
    // `filter` and `nth` are no shorter: what they give would have to be tied to the sum that counts the sides.
    let mut seen = 0;
    for (d, span) in row.spans[..usize::from(shape.n)].iter().enumerate() {
        if usize::from(span.level) == level {
            if seen == number {
                return d;
            }
            seen += 1;
        }
    }
    unreachable()
}

// Low for an even number of a point among those of its rank, high for an odd one.
fn side_of(number: usize) -> Side
    ensures low { result ≡ low → number % 2 ≡ 0 }
    ensures high { result ≡ high → number % 2 ≡ 1 }
{
    if number % 2 == 0 {
        Side::Low
    } else {
        Side::High
    }
}

// The middle of an interval, moved down or up by a third of its length: the middle of an outer third.
fn moved(interval: Interval, side: Side) -> u32
    requires { interval.level < 19 }
    ensures { Moved side interval.first interval.level result }
{
    let thirds = interval.cut();
    match side {
        Side::Low => thirds.low.middle(),
        Side::High => thirds.high.middle(),
    }
}

// A point's cell in direction e, where the point is of the long side d, low or high.
fn coordinate(row: &Row, d: usize, side: Side, e: usize) -> u32
    requires { (e < 6) × ((IsInterval (first_of row.now e) (level_of row.now e)) × (level_of row.now d < 19)) }
    ensures { Coordinate row.now d side e result }
{
    let interval = interval_in(row, e);
    if e == d {
        moved(interval, side)
    } else {
        interval.middle()
    }
}

// Writes the n cells of a point of the long side d, low or high.
fn write_cell(row: &Row, shape: &Shape, d: usize, side: Side, cells: &mut [u32])
    requires intervals { (e : ℕ) → e < shape.now.n → IsInterval (first_of row.now e) (level_of row.now e) }
    requires side { level_of row.now d < 19 }
    requires room { shape.now.n ≤ length cells.old }
    ensures cell { (e : ℕ) → e < shape.now.n → Coordinate row.now d side e (slice_index cells.new e) }
    ensures same { length cells.new ≡ length cells.old }
    ensures after { (e : ℕ) → shape.now.n ≤ e → slice_index cells.new e ≡ slice_index cells.old e }
{
    for (e, cell) in cells[..usize::from(shape.n)].iter_mut().enumerate() {
        *cell = coordinate(row, d, side, e);
    }
}

impl Looked<'_> {
    // Writes a point's n cells into a cell list, and nothing after them.
    pub(crate) fn locate(&self, point: usize, cells: &mut [u32]) -> Result<(), Refusal>
        ensures { LocatesIn self.now.round.now self.now.table.now point cells.old result cells.new }
    {
        let round = self.round;
        let n = usize::from(round.shape.n);
        if point >= round.points {
            return Err(Refusal::NoSuchPoint);
        }
        if cells.len() < n {
            return Err(Refusal::ShortCellList);
        }
        let (rank, number) = round.rank_of(point);
        let taken = match self.firsts[rank] {
            Some(first) => first.row,
            None => unreachable(),
        };
        let row = self.table[taken];
        let d = long_side(&row, &round.shape, rank / n, number / 2);
        write_cell(&row, &round.shape, d, side_of(number), cells);
        Ok(())
    }
}

impl Round {
    // Writes a point's n cells into a cell list, and nothing after them.
    pub fn locate(&self, point: usize, table: &[Row], cells: &mut [u32]) -> Result<(), Refusal>
        ensures { Locates self.now table.now point cells.old result cells.new }
    {
        self.look(table)?.locate(point, cells)
    }
}
