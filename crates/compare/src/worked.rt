// The examples that docs/ works out, with their numbers.
use crate::draw::Draw;
use crate::halt::Halt;
use crate::plan::Plan;
use crate::seen::{Call, Chosen, Numbers, ROOM, Seen};
use crate::states::{Busy, Calm, State};
use crate::tables::Tables;
use crate::tally::Tally;
use reference::frame::Frame;
use reference::lines::{Answer, Line, Side};

// An example on tables of its own.
#[derive(Drop)]
struct Example<'a> {
    tally: &'a mut Tally,
    tables: Tables,
}

// A box of two directions, by the first cell and the level of each.
fn box_of(reading: i32, sides: [(u32, u8); 2]) -> Line {
    let mut line = Line::whole(Some(Answer::Reading(reading)));
    for (side, (first, level)) in line.sides.iter_mut().zip(sides) {
        *side = Side { first, level };
    }
    line
}

impl Example<'_> {
    // A search that has begun; the rules say that it begins.
    fn begun(&mut self, frame: Frame, reading: i32) -> Result<Calm, Halt> {
        self.tally.next_run(None);
        let answer = Answer::Reading(reading);
        self.tally
            .begin(frame, answer, &mut self.tables.all())?
            .ok_or(Halt::Stuck)
    }

    // A try to open a round on the first rows.
    fn tried(&mut self, calm: Calm, plan: Plan, rows: usize) -> Result<Result<Busy, Calm>, Halt> {
        self.tally.open(calm, plan, &mut self.tables.first(rows))
    }

    // A round that opens.
    fn opened(&mut self, calm: Calm, plan: Plan) -> Result<Busy, Halt> {
        self.tried(calm, plan, usize::MAX)?.map_err(|_| Halt::Stuck)
    }

    // A round that closes, after its points have got some readings in their order.
    fn closed(&mut self, busy: Busy, readings: &[i32]) -> Result<Calm, Halt> {
        for (point, reading) in readings.iter().enumerate() {
            let answer = Answer::Reading(*reading);
            self.tally
                .answer(&busy, point, answer, &mut self.tables.all())?;
        }
        self.tally
            .close(busy, &mut self.tables.all())?
            .map_err(|_| Halt::Stuck)
    }

    // A point of two directions stands where the rules say.
    fn located(&mut self, busy: &Busy, point: usize, cell: [u32; 2]) -> Result<(), Halt> {
        let cells = self
            .tally
            .locate(busy, point, ROOM, &mut self.tables.all())?;
        let mut told = cells;
        told[..2].copy_from_slice(&cell);
        let call = Call::Locate(point, ROOM);
        self.tally
            .told(call, Seen::Cells(None, cells), Seen::Cells(None, told))
    }

    // A row of the table is as the rules say.
    fn stands(&self, place: usize, told: Line) -> Result<(), Halt> {
        let line = self.tables.line(place).ok_or(Halt::Stuck)?;
        self.tally.told(Call::Close, Seen::Row(place, line), Seen::Row(place, told))
    }

    // The rows after the first division.
    fn divided(&self) -> Result<(), Halt> {
        let third = 387_420_489;
        let two_thirds = 774_840_978;
        self.stands(0, box_of(50, [(third, 1), (third, 1)]))?;
        self.stands(1, box_of(40, [(0, 1), (third, 1)]))?;
        self.stands(2, box_of(70, [(two_thirds, 1), (third, 1)]))?;
        self.stands(3, box_of(30, [(0, 0), (0, 1)]))?;
        self.stands(4, box_of(60, [(0, 0), (two_thirds, 1)]))
    }
}

impl Tally {
    // An example on tables of so many rows, drawn from a start value.
    fn example(&mut self, seed: u64, rows: usize) -> Result<Example<'_>, Halt> {
        let tables = Tables::new(self.heap, &mut Draw::new(seed), rows)?;
        Ok(Example {
            tally: self,
            tables,
        })
    }
}

// The first division, and the round by Every after it.
fn first_division(tally: &mut Tally) -> Result<(), Halt> {
    let mut example = tally.example(1, 11)?;
    let calm = example.begun(Frame { n: 2, finest: 19 }, 50)?;
    let busy = example.opened(calm, Plan::EVERY)?;
    example.located(&busy, 0, [193_710_244, 581_130_733])?;
    example.located(&busy, 1, [968_551_222, 581_130_733])?;
    example.located(&busy, 2, [581_130_733, 193_710_244])?;
    example.located(&busy, 3, [581_130_733, 968_551_222])?;
    let calm = example.closed(busy, &[40, 70, 30, 60])?;
    example.divided()?;
    let busy = example.opened(calm, Plan::EVERY)?;
    // ranks 1 and 2, whose first boxes are rows 3 and 1
    example.located(&busy, 0, [193_710_244, 193_710_244])?;
    example.located(&busy, 2, [64_570_081, 581_130_733])
}

// Five rows are enough for the first round of two directions, and four are not.
fn just_enough(tally: &mut Tally) -> Result<(), Halt> {
    let call = Call::Open(Plan::EVERY);
    let mut example = tally.example(2, 5)?;
    let calm = example.begun(Frame { n: 2, finest: 19 }, 0)?;
    let Err(calm) = example.tried(calm, Plan::EVERY, 4)? else {
        return Err(Halt::Stuck);
    };
    example.tally.told_why(call, Some(7))?;
    let _busy = example.opened(calm, Plan::EVERY)?;
    example.tally.told_why(call, None)
}

// One direction of finest level 1 is finished after one round.
fn soon_finished(tally: &mut Tally) -> Result<(), Halt> {
    let mut example = tally.example(3, 9)?;
    let calm = example.begun(Frame { n: 1, finest: 1 }, 5)?;
    let busy = example.opened(calm, Plan::EVERY)?;
    let calm = example.closed(busy, &[4, 6])?;
    let _refused = example.tried(calm, Plan::EVERY, usize::MAX)?;
    let call = Call::Open(Plan::EVERY);
    example.tally.told_why(call, Some(6))
}

// Hull with a share chooses some of the ranks 0, 1 and 2 of one direction.
fn hull_chooses(
    tally: &mut Tally,
    share: u16,
    readings: [i32; 3],
    last: u8,
    ranks: &[usize],
) -> Result<(), Halt> {
    let plan = Plan {
        share: Some(share),
        ..Plan::EVERY
    };
    let mut example = tally.example(4, 20)?;
    let calm = example.begun(Frame { n: 1, finest: 19 }, 0)?;
    let busy = example.opened(calm, Plan::EVERY)?;
    let calm = example.closed(busy, &[0, 0])?;
    for (place, (reading, level)) in readings.into_iter().zip([0, 1, last]).enumerate() {
        let line = box_of(reading, [(0, level), (0, 0)]);
        example.tables.set(place, line);
    }
    let busy = example.opened(calm, plan)?;
    let numbers = busy.round.numbers();
    let told = Numbers {
        chosen: Chosen::of(ranks.iter().copied()),
        ..numbers
    };
    example
        .tally
        .told(Call::Open(plan), Seen::State(numbers), Seen::State(told))
}

// The examples of Hull; two ranks alone stand in three rows with one of them twice.
fn hulls(tally: &mut Tally) -> Result<(), Halt> {
    hull_chooses(tally, 0, [22, 10, 6], 2, &[0, 1, 2])?;
    hull_chooses(tally, 0, [22, 10, 5], 2, &[0, 2])?;
    hull_chooses(tally, 1_000, [12, 10, 10], 1, &[0, 1])?;
    hull_chooses(tally, 1_000, [11, 10, 10], 1, &[0])?;
    hull_chooses(tally, 1_000, [10, 10, 10], 1, &[0])
}

// The two examples of the order of checks.
fn first_check_counts(tally: &mut Tally) -> Result<(), Halt> {
    tally.next_run(None);
    let frame = Frame { n: 0, finest: 20 };
    let answer = Answer::Reading(2_000_000_000);
    let mut none = Tables::new(tally.heap, &mut Draw::new(5), 0)?;
    let _refused = tally.begin(frame, answer, &mut none.all())?;
    tally.told_why(Call::Begin(frame, answer), Some(1))?;
    let mut example = tally.example(5, 9)?;
    let calm = example.begun(Frame { n: 2, finest: 19 }, 0)?;
    let busy = example.opened(calm, Plan::EVERY)?;
    let Example { tally, tables: _ } = example;
    tally.answer(&busy, 99, answer, &mut none.all())?;
    tally.told_why(Call::Answer(99, answer), Some(4))
}

// All worked examples.
pub fn examples(tally: &mut Tally) -> Result<(), Halt> {
    first_division(tally)?;
    just_enough(tally)?;
    soon_finished(tally)?;
    hulls(tally)?;
    first_check_counts(tally)
}
