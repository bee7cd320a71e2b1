// Calls that are wrong or odd: most of them are refused.
use crate::desk::Desk;
use crate::draw::Draw;
use crate::halt::Halt;
use crate::plan::Plan;
use crate::seen::ROOM;
use crate::setting::wrong_reading;
use crate::states::{Busy, Calm};
use crate::tables::Pair;
use crate::tally::Tally;
use reference::lines::{Answer, Line};

// A call of a round, with its arguments.
#[derive(Clone, Copy)]
enum Ask {
    Locate { point: usize, room: usize },
    Waiting,
    Answer { point: usize, answer: Answer },
}

impl Ask {
    // Any of them, about half of the arguments allowed. All arguments are drawn at each kind.
    fn any(draw: &mut Draw, points: usize) -> Ask {
        let near = draw.place(points.saturating_add(2));
        let answer = match draw.below(4) {
            0 => Answer::NotFeasible,
            1 => wrong_reading(draw),
            _ => Answer::Reading(draw.between(-5, 5)),
        };
        let kind = draw.below(3);
        let point = if draw.once_in(20) { usize::MAX } else { near };
        let room = draw.place(ROOM.saturating_add(1));
        match kind {
            0 => Ask::Locate { point, room },
            1 => Ask::Waiting,
            _ => Ask::Answer { point, answer },
        }
    }

    // Makes the call.
    fn make(self, tally: &mut Tally, busy: &Busy, table: &mut Pair<'_>) -> Result<(), Halt> {
        match self {
            Ask::Locate { point, room } => {
                let _cells = tally.locate(busy, point, room, table)?;
                Ok(())
            }
            Ask::Waiting => tally.waiting(busy, table),
            Ask::Answer { point, answer } => tally.answer(busy, point, answer, table),
        }
    }
}

// A policy that cannot be made, now and then one that can.
fn any_plan(draw: &mut Draw) -> Plan {
    let share = Some(u16::try_from(draw.below(65_536)).unwrap_or(0));
    let most = Some(draw.byte());
    match draw.below(4) {
        0 => Plan {
            share,
            ..Plan::EVERY
        },
        1 => Plan {
            share,
            caps: [most, None],
        },
        2 => Plan {
            caps: [most, Some(draw.byte())],
            ..Plan::EVERY
        },
        _ => Plan {
            share: Some(10_001),
            caps: [Some(0), None],
        },
    }
}

// Some of the first rows: at most two less than a number, or some more.
fn some_rows(draw: &mut Draw, about: usize) -> usize {
    about.saturating_sub(2).saturating_add(draw.place(20))
}

impl Desk<'_> {
    // Changes a number of one of the first rows; gives the line as it was, and its place.
    fn damage(&mut self, among: usize) -> Option<(usize, Line)> {
        let place = self.draw.place(among);
        let line = self.own.line(place)?;
        self.own.damage(&mut self.draw, place);
        Some((place, line))
    }

    // Mends a row after a refusal; after an accepted call never, or at times if `at_times`.
    fn mend(&mut self, damaged: Option<(usize, Line)>, at_times: bool) {
        let Some((place, line)) = damaged else {
            return;
        };
        if self.tally.last.is_some() || at_times && self.draw.once_in(2) {
            self.own.set(place, line);
        }
    }

    // An odd call at rest.
    pub fn odd_at_rest(&mut self, calm: &Calm) -> Result<(), Halt> {
        let boxes = calm.still.boxes;
        match self.draw.below(4) {
            0 => {
                let rows = self.draw.place(boxes);
                self.tally.best(calm, &mut self.own.first(rows))
            }
            1 => {
                let damaged = self.damage(boxes.saturating_add(1));
                self.best(calm)?;
                self.mend(damaged, true);
                Ok(())
            }
            2 => self.tally.best(calm, &mut self.other.all()),
            _ => self.tally.make(any_plan(&mut self.draw)),
        }
    }

    // An odd call in a round.
    pub fn odd_in_round(&mut self, busy: &Busy) -> Result<(), Halt> {
        let points = busy.going.points;
        let all = busy.going.row(points);
        let ask = Ask::any(&mut self.draw, points);
        match self.draw.below(4) {
            0 => ask.make(self.tally, busy, &mut self.own.all()),
            1 => ask.make(self.tally, busy, &mut self.other.all()),
            2 => {
                let rows = some_rows(&mut self.draw, all);
                ask.make(self.tally, busy, &mut self.own.first(rows))
            }
            _ => {
                let damaged = self.damage(all.saturating_add(1));
                ask.make(self.tally, busy, &mut self.own.all())?;
                self.mend(damaged, true);
                Ok(())
            }
        }
    }

    // A call about so many rows on tables of an earlier run, on some of the rows, or on a damaged table.
    fn oddly<T, F>(&mut self, rows: usize, call: F) -> Result<T, Halt>
    where
        F: FnOnce(&mut Tally, &mut Pair<'_>) -> Result<T, Halt>,
        T: Drop,
        requires { F.IsAlwaysCallable call }
    {
        match self.draw.below(3) {
            0 => call(self.tally, &mut self.other.all()),
            1 => {
                let some = some_rows(&mut self.draw, rows);
                call(self.tally, &mut self.own.first(some))
            }
            _ => {
                let damaged = self.damage(rows.saturating_add(1));
                let given = call(self.tally, &mut self.own.all())?;
                self.mend(damaged, false);
                Ok(given)
            }
        }
    }

    // Opens a round in an odd way.
    pub fn odd_open(&mut self, calm: Calm, plan: Plan) -> Result<Result<Busy, Calm>, Halt> {
        let rows = calm.still.boxes;
        self.oddly(rows, |tally, table| tally.open(calm, plan, table))
    }

    // Closes a round in an odd way.
    pub fn odd_close(&mut self, busy: Busy) -> Result<Result<Calm, Busy>, Halt> {
        let rows = busy.going.row(busy.going.points);
        self.oddly(rows, |tally, table| tally.close(busy, table))
    }
}
