// Whole searches by the public calls of both implementations.
use crate::draw::Draw;
use crate::fail::Fail;
use crate::play::{Play, play_up_to, timed};
use crate::tables::Tables;
use order::answer::Answer;
use policy::every::Every;
use reference::frame::Frame;
use reference::lines::{Answer as Said, Line, Table};
use reference::policies::Policy;
use reference::still::Still;
use search::begin::begin;
use search::states::Rest;
use std::alloc::Global;
use std::rt::Clock;
use table::rows::Row;

// Plays rounds by Every with the package.
#[derive(Drop)]
struct Ours<'a> {
    table: &'a mut [Row],
    draw: Draw,
}

// The same with the second implementation.
#[derive(Drop)]
struct Theirs<'a> {
    table: Table<'a>,
    draw: Draw,
}

impl Play for Ours<'_> {
    type Rest = Rest;

    fn boxes(rest: &Rest) -> usize {
        rest.boxes()
    }

    fn round(&mut self, rest: Rest) -> Result<Rest, Fail> {
        let round = rest.open(&Every {}, self.table)?;
        for point in 0..round.points() {
            let answer = Answer::Reading(self.draw.reading());
            round.answer(point, answer, self.table)?;
        }
        Ok(round.close(self.table)?)
    }
}

impl Play for Theirs<'_> {
    type Rest = Still;

    fn boxes(still: &Still) -> usize {
        still.boxes
    }

    fn round(&mut self, still: Still) -> Result<Still, Fail> {
        let going = still.open(Policy::every(), &mut self.table)?;
        for point in 0..going.points {
            let answer = Said::Reading(self.draw.reading());
            going.answer(point, answer, &mut self.table)?;
        }
        Ok(going.close(&mut self.table)?)
    }
}

// A search up to so many boxes.
fn search(boxes: usize, table: &mut [Row]) -> Result<usize, Fail> {
    let mut draw = Draw::new(7);
    let rest = begin(4, 19, table, Answer::Reading(draw.reading()))?;
    let rest = play_up_to(&mut Ours { table, draw }, rest, boxes)?;
    Ok(rest.boxes())
}

// The same by the second implementation.
fn search_again(heap: Global, boxes: usize, lines: &mut [Line]) -> Result<usize, Fail> {
    let mut draw = Draw::new(7);
    let frame = Frame { n: 4, finest: 19 };
    let still = Still::begin(frame, Said::Reading(draw.reading()), lines)?;
    let table = Table { heap, lines };
    let still = play_up_to(&mut Theirs { table, draw }, still, boxes)?;
    Ok(still.boxes)
}

// A search up to so many boxes by both.
pub fn time_searches(
    rt: &(impl Clock + Eprint + AllocGlobal),
    boxes: usize,
) -> Result<usize, Fail> {
    let heap = rt.alloc();
    let mut tables = Tables::new(heap)?;
    let rows = tables.rows.as_mut_slice();
    let (found, ours) = timed(rt, || search(boxes, rows))?;
    let lines = tables.lines.as_mut_slice();
    let (again, theirs) = timed(rt, || search_again(heap, boxes, lines))?;
    if found != again {
        return Err(Fail::Other);
    }
    tables.same_boxes()?;
    let ours = ours.as_micros();
    let theirs = theirs.as_micros();
    eprintln!(rt; "search by the calls, n 4 boxes {found}: {ours} us; reference {theirs} us")?;
    Ok(1)
}
