// Records of runs by Hull, made by playing the runs.
use crate::draw::Draw;
use crate::fail::Fail;
use crate::play::{Play, play_up_to, timed};
use hull::hull::Hull;
use order::answer::Answer;
use search::begin::begin;
use search::states::{Rest, Round};
use std::alloc::AllocError;
use std::rt::Clock;
use std::time::Duration;
use table::rows::{Entry, Row};

// The share of the rounds, in ten thousandths.
const SHARE: u16 = 100;

#[derive(Drop)]
pub struct Made {
    pub bytes: Vec<u8>,
    // the time that forming the fronts of all rounds takes
    pub fronts: Duration,
}

// Plays rounds by Hull, and makes the record of them.
#[derive(Drop)]
struct Telling<'r, 't, R> {
    rt: &'r R,
    table: &'t mut [Row],
    draw: Draw,
    made: Made,
}

impl Made {
    // Adds an item.
    fn tell(&mut self, mark: &[u8], body: &[u8]) -> Result<(), AllocError> {
        self.bytes.extend_from_slice(mark)?;
        self.bytes.extend_from_slice(body)
    }

    fn tell_reading(&mut self, reading: i32) -> Result<(), AllocError> {
        self.tell(b"VL", &reading.to_be_bytes())
    }
}

impl<R: Clock> Telling<'_, '_, R> {
    // Answers all points of a round right in the table, and tells the answers.
    fn answer_all(&mut self, round: &Round) -> Result<(), Fail> {
        let from = round.boxes();
        let to = from.saturating_add(round.points());
        let points = self.table.get_mut(from..to).ok_or(Fail::Other)?;
        for row in points {
            let reading = self.draw.reading();
            self.made.tell_reading(reading)?;
            row.entry = Entry::Answered(Answer::Reading(reading));
        }
        Ok(())
    }

    // Adds the time that forming the front of a search takes.
    fn time_front(&mut self, rest: &Rest) -> Result<(), Fail> {
        let rt = self.rt;
        let shape = rest.shape();
        let boxes = self.table.get(..rest.boxes()).ok_or(Fail::Other)?;
        let (front, took) = timed(rt, || Ok(shape.front_of(boxes)))?;
        if front.readings().is_none() {
            return Err(Fail::Other);
        }
        self.made.fronts = self.made.fronts.checked_add(took).ok_or(Fail::Other)?;
        Ok(())
    }
}

impl<R: Clock> Play for Telling<'_, '_, R> {
    type Rest = Rest;

    fn boxes(rest: &Rest) -> usize {
        rest.boxes()
    }

    // Opens, answers and closes a round.
    fn round(&mut self, rest: Rest) -> Result<Rest, Fail> {
        self.time_front(&rest)?;
        let round = rest.open(&Hull::new(SHARE)?, self.table)?;
        self.made.tell(b"RH", &SHARE.to_be_bytes())?;
        self.answer_all(&round)?;
        Ok(round.close(self.table)?)
    }
}

// The record of a run with so many answers at least.
pub fn record_of_run(
    rt: &(impl Clock + AllocGlobal),
    n: u8,
    answers: usize,
    table: &mut [Row],
) -> Result<Made, Fail> {
    let mut draw = Draw::new(u64::from(n));
    let middle = draw.reading();
    let mut made = Made {
        bytes: Vec::new(rt.alloc()),
        fronts: Duration::from_millis(0),
    };
    made.tell(b"BG", &[n, 19])?;
    made.tell_reading(middle)?;
    let rest = begin(n, 19, table, Answer::Reading(middle))?;
    let mut telling = Telling {
        rt,
        table,
        draw,
        made,
    };
    let _rest = play_up_to(&mut telling, rest, answers)?;
    Ok(telling.made)
}
