// Each call, made on both sides.
use super::Tally;
use crate::halt::{Halt, settled};
use crate::plan::Plan;
use crate::seen::{Asked, Beside, Call, ROOM, Seen};
use crate::states::{Busy, Calm, State};
use crate::tables::{Pair, measured};
use crate::why::Why;
use reference::frame::Frame;
use reference::lines::Answer;
use reference::still::Still;
use search::begin::begin;

// What stands in a cell list before a call.
const UNTOUCHED: u32 = 4_000_000_000;

// What the reference says of the points that wait: the named one if it waits, else the first of them.
fn first_waiting(all: Vec<usize>, named: Seen) -> Seen {
    match named {
        Seen::Point(Some(point)) if all.contains(&point) => named,
        _ => Seen::Point(all.first().copied()),
    }
}

impl Tally {
    // Makes a policy on both sides.
    pub fn make(&mut self, plan: Plan) -> Result<(), Halt> {
        let asked = Asked {
            call: Call::Make(plan),
            rows: 0,
        };
        let package = Seen::of(plan.make().map(|()| Seen::Done));
        let reference = Seen::of(plan.second().map(|_| Seen::Done));
        self.see(asked, package, reference)
    }

    // Begins a search, if both accept.
    pub fn begin(
        &mut self,
        frame: Frame,
        answer: Answer,
        table: &mut Pair<'_>,
    ) -> Result<Option<Calm>, Halt> {
        let asked = Asked::new(Call::Begin(frame, answer), table);
        let rest = begin(frame.n, frame.finest, table.rows, measured(answer));
        let still = Still::begin(frame, answer, table.lines);
        let package = Seen::state(rest.as_ref().map_err(|why| *why));
        let reference = Seen::state(still.as_ref().map_err(|cause| *cause));
        self.see(asked, package, reference)?;
        self.tables(asked, table)?;
        Ok(
            rest.ok()
                .zip(still.ok())
                .map(|(rest, still)| Calm { rest, still }),
        )
    }

    // Opens a round, if both accept; else both are at rest again.
    pub fn open(
        &mut self,
        calm: Calm,
        plan: Plan,
        table: &mut Pair<'_>,
    ) -> Result<Result<Busy, Calm>, Halt> {
        let Ok(policy) = plan.second() else {
            return Ok(Err(calm));
        };
        let asked = Asked::new(Call::Open(plan), table);
        let Calm { rest, still } = calm;
        let round = plan.open(rest, table.rows);
        let going = settled(still.open(policy, &mut table.second(self.heap)))?;
        let package = Seen::state(round.as_ref().map_err(|(why, _)| *why));
        let reference = Seen::state(going.as_ref().map_err(|cause| *cause));
        self.see(asked, package, reference)?;
        self.tables(asked, table)?;
        match (round, going) {
            (Ok(round), Ok(going)) => Ok(Ok(Busy { round, going })),
            (Err((_, rest)), Err(_)) => {
                let package = Seen::State(rest.numbers());
                self.same(asked, package, Seen::State(still.numbers()))?;
                Ok(Err(Calm { rest, still }))
            }
            _ => Err(self.differs(asked, package, Beside::Reference, reference)),
        }
    }

    // Locates a point, and gives the cell list after the call.
    pub fn locate(
        &mut self,
        busy: &Busy,
        point: usize,
        room: usize,
        table: &mut Pair<'_>,
    ) -> Result<[u32; ROOM], Halt> {
        let room = room.min(ROOM);
        let asked = Asked::new(Call::Locate(point, room), table);
        let mut cells = [UNTOUCHED; ROOM];
        let mut second = [UNTOUCHED; ROOM];
        let package = busy.round.locate(point, table.rows, &mut cells[..room]);
        let reference = settled(
            busy.going
                .locate(point, table.second_rows(self.heap), &mut second[..room]),
        )?;
        let package = Seen::Cells(package.err().map(Why::from), cells);
        let reference = Seen::Cells(reference.err().map(Why::from), second);
        self.see(asked, package, reference)?;
        self.tables(asked, table)?;
        Ok(cells)
    }

    // Asks for a point that waits.
    pub fn waiting(&mut self, busy: &Busy, table: &mut Pair<'_>) -> Result<(), Halt> {
        let asked = Asked::new(Call::Waiting, table);
        let package = Seen::of(busy.round.waiting(table.rows).map(Seen::Point));
        let reference = settled(busy.going.waiting(table.second_rows(self.heap)))?;
        let reference = Seen::of(reference.map(|all| first_waiting(all, package)));
        self.see(asked, package, reference)?;
        self.tables(asked, table)
    }

    // Answers a point.
    pub fn answer(
        &mut self,
        busy: &Busy,
        point: usize,
        answer: Answer,
        table: &mut Pair<'_>,
    ) -> Result<(), Halt> {
        let asked = Asked::new(Call::Answer(point, answer), table);
        let package = busy.round.answer(point, measured(answer), table.rows);
        let reference = settled(
            busy.going
                .answer(point, answer, &mut table.second(self.heap)),
        )?;
        let package = Seen::of(package.map(|()| Seen::Done));
        let reference = Seen::of(reference.map(|()| Seen::Done));
        self.see(asked, package, reference)?;
        self.tables(asked, table)
    }

    // Closes a round, if both accept; else both are in the round again.
    pub fn close(&mut self, busy: Busy, table: &mut Pair<'_>) -> Result<Result<Calm, Busy>, Halt> {
        let asked = Asked::new(Call::Close, table);
        let Busy { round, going } = busy;
        let rest = round.close(table.rows);
        let still = settled(going.close(&mut table.second(self.heap)))?;
        let package = Seen::state(rest.as_ref().map_err(|(why, _)| *why));
        let reference = Seen::state(still.as_ref().map_err(|cause| *cause));
        self.see(asked, package, reference)?;
        self.tables(asked, table)?;
        match (rest, still) {
            (Ok(rest), Ok(still)) => Ok(Ok(Calm { rest, still })),
            (Err((_, round)), Err(_)) => {
                let package = Seen::State(round.numbers());
                self.same(asked, package, Seen::State(going.numbers()))?;
                Ok(Err(Busy { round, going }))
            }
            _ => Err(self.differs(asked, package, Beside::Reference, reference)),
        }
    }

    // Asks for the best box.
    pub fn best(&mut self, calm: &Calm, table: &mut Pair<'_>) -> Result<(), Halt> {
        let asked = Asked::new(Call::Best, table);
        let package = Seen::of(calm.rest.best(table.rows).map(Seen::Best));
        let reference = settled(calm.still.best(table.second_rows(self.heap)))?;
        let reference = Seen::of(reference.map(Seen::Best));
        self.see(asked, package, reference)?;
        self.tables(asked, table)
    }
}
