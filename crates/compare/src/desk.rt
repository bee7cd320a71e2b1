// What a run works on: its tables, tables of an earlier run, and drawn numbers.
use crate::draw::Draw;
use crate::halt::Halt;
use crate::plan::Plan;
use crate::seen::ROOM;
use crate::setting::{Plans, Setting, plan_at};
use crate::states::{Busy, Calm};
use crate::tables::Tables;
use crate::tally::Tally;
use reference::lines::Answer;

#[derive(Drop)]
pub struct Desk<'a> {
    pub tally: &'a mut Tally,
    pub own: Tables,
    pub other: &'a mut Tables,
    pub draw: Draw,
    pub setting: Setting,
}

impl Desk<'_> {
    // The plan of the next round.
    pub fn plan(&mut self) -> Plan {
        match self.setting.plans {
            Plans::Same(plan) => plan,
            Plans::Drawn(_) => plan_at(self.draw.below(150)),
        }
    }

    // An answer at a cell.
    pub fn answer_at(&mut self, cells: &[u32; ROOM]) -> Answer {
        self.setting.answer_at(&mut self.draw, cells)
    }

    // Whether a wrong call comes now.
    pub fn wrong(&mut self) -> bool {
        match self.setting.mischief {
            Some(times) => self.draw.once_in(times),
            None => false,
        }
    }

    // Begins the search on the own tables.
    pub fn begin(&mut self, answer: Answer) -> Result<Option<Calm>, Halt> {
        self.tally
            .begin(self.setting.frame, answer, &mut self.own.all())
    }

    // The best box.
    pub fn best(&mut self, calm: &Calm) -> Result<(), Halt> {
        self.tally.best(calm, &mut self.own.all())
    }

    // Opens a round on the first rows of the own tables.
    pub fn open(
        &mut self,
        calm: Calm,
        plan: Plan,
        upto: usize,
    ) -> Result<Result<Busy, Calm>, Halt> {
        self.tally.open(calm, plan, &mut self.own.first(upto))
    }

    // Closes a round on the first rows of the own tables.
    pub fn close(&mut self, busy: Busy, upto: usize) -> Result<Result<Calm, Busy>, Halt> {
        self.tally.close(busy, &mut self.own.first(upto))
    }

    // Locates a point, and answers it.
    pub fn measure(&mut self, busy: &Busy, point: usize) -> Result<(), Halt> {
        let cells = self.tally.locate(busy, point, ROOM, &mut self.own.all())?;
        let answer = self.answer_at(&cells);
        self.tally.answer(busy, point, answer, &mut self.own.all())
    }
}
