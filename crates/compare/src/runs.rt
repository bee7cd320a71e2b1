// A run: a search from its beginning to its last round.
use crate::desk::Desk;
use crate::draw::Draw;
use crate::halt::Halt;
use crate::seen::ROOM;
use crate::setting::{Setting, wrong_reading};
use crate::states::{Busy, Calm};
use crate::tables::Tables;
use crate::tally::Tally;

impl Desk<'_> {
    // Begins the search, at times after a beginning that is refused.
    fn begun(&mut self) -> Result<Option<Calm>, Halt> {
        if self.wrong() {
            let reading = wrong_reading(&mut self.draw);
            let _none = self.begin(reading)?;
        }
        let answer = self.answer_at(&[581_130_733; ROOM]);
        self.begin(answer)
    }

    // Opens a round, at times after a try that is mostly refused.
    fn opened(&mut self, calm: Calm) -> Result<Result<Busy, Calm>, Halt> {
        let plan = self.plan();
        if !self.wrong() {
            return self.open(calm, plan, usize::MAX);
        }
        match self.odd_open(calm, plan)? {
            Ok(busy) => Ok(Ok(busy)),
            Err(calm) => self.open(calm, plan, usize::MAX),
        }
    }

    // Measures a point, at times after an odd call.
    fn step(&mut self, busy: &Busy, point: usize) -> Result<(), Halt> {
        if self.wrong() {
            self.odd_in_round(busy)?;
        }
        self.measure(busy, point)
    }

    // Measures all points, rising or falling.
    fn measure_all(&mut self, busy: &Busy) -> Result<(), Halt> {
        let points = 0..busy.going.points;
        if self.draw.once_in(3) {
            for point in points.rev() {
                self.step(busy, point)?;
            }
        } else {
            for point in points {
                self.step(busy, point)?;
            }
        }
        self.tally.waiting(busy, &mut self.own.all())
    }

    // Measures all points and closes the round.
    fn finished(&mut self, busy: Busy) -> Result<Result<Calm, Busy>, Halt> {
        self.measure_all(&busy)?;
        if !self.wrong() {
            return self.close(busy, usize::MAX);
        }
        match self.odd_close(busy)? {
            Ok(calm) => Ok(Ok(calm)),
            Err(busy) => self.close(busy, usize::MAX),
        }
    }

    // The same, and once more where the round does not close, as where a point was made to wait again.
    fn through(&mut self, busy: Busy) -> Result<Option<Calm>, Halt> {
        match self.finished(busy)? {
            Ok(calm) => Ok(Some(calm)),
            Err(busy) => Ok(self.finished(busy)?.ok()),
        }
    }

    // Closes the round too early at times, and then goes through it.
    fn rounded(&mut self, busy: Busy) -> Result<Option<Calm>, Halt> {
        if !self.wrong() {
            return self.through(busy);
        }
        match self.odd_close(busy)? {
            Ok(calm) => Ok(Some(calm)),
            Err(busy) => self.through(busy),
        }
    }

    // From rest to rest; none where no round opens or closes.
    fn round(&mut self, calm: Calm) -> Result<Option<Calm>, Halt> {
        let boxes = calm.still.boxes;
        if self.setting.crafted {
            self.craft(boxes);
        }
        if self.wrong() {
            self.odd_at_rest(&calm)?;
        }
        match self.opened(calm)? {
            Ok(busy) => self.rounded(busy),
            Err(calm) => {
                self.best(&calm)?;
                self.tally.end_run(boxes);
                Ok(None)
            }
        }
    }

    // All rounds of a run.
    fn rounds(&mut self, calm: Calm) -> Result<(), Halt> {
        let mut calm = calm;
        for _ in 0..self.setting.rounds {
            self.best(&calm)?;
            calm = match self.round(calm)? {
                Some(next) => next,
                None => return Ok(()),
            };
        }
        self.tally.end_run(calm.still.boxes);
        self.best(&calm)
    }

    // A search.
    fn search(&mut self) -> Result<(), Halt> {
        self.tally.make(self.setting.plans.first())?;
        match self.begun()? {
            Some(calm) => self.rounds(calm),
            None => Ok(()),
        }
    }
}

// The runs so far, and the tables of the last one.
#[derive(Drop)]
pub struct Runs<'a> {
    pub tally: &'a mut Tally,
    pub last: Tables,
}

impl Runs<'_> {
    // A whole run, beside the tables of the one before.
    pub fn run(&mut self, setting: Setting) -> Result<(), Halt> {
        self.tally.next_run(Some(setting));
        let mut draw = Draw::new(self.tally.run);
        let own = Tables::new(self.tally.heap, &mut draw, setting.rows)?;
        let mut desk = Desk {
            tally: &mut *self.tally,
            own,
            other: &mut self.last,
            draw,
            setting,
        };
        desk.search()?;
        let Desk { own, .. } = desk;
        self.last = own;
        Ok(())
    }
}
