// Records: whole ones, grown until they tell a run, and damaged ones.
use crate::draw::Draw;
use crate::halt::{Halt, settled};
use crate::setting::any_frame;
use crate::tables::Tables;
use crate::tally::Tally;
use reference::frame::Frame;
use reference::lines::{Line, Table};
use reference::replay::replay;
use reference::stop::{Cause, RefusedAt};
use std::alloc::Global;

// How many records are grown, and how many damaged ones come of each.
const RECORDS: u64 = 300;

const DAMAGED: usize = 6;

// The rows on which a record is grown.
const ROWS: usize = 400;

// Marks, and two bytes that are none.
const MARKS: [[u8; 2]; 7] = [*b"BG", *b"VL", *b"NF", *b"CP", *b"RE", *b"RH", *b"XY"];

// A record that grows by drawn items.
#[derive(Drop)]
struct Growing<'a> {
    heap: Global,
    draw: &'a mut Draw,
    bytes: Vec<u8>,
}

impl Growing<'_> {
    // An answer: mostly a small reading.
    fn push_answer(&mut self) -> Result<(), Halt> {
        if self.draw.once_in(5) {
            self.bytes.extend_from_slice(b"NF")?;
            return Ok(());
        }
        let reading = if self.draw.once_in(3) {
            self.draw.between(-1_000_000_000, 1_000_000_000)
        } else {
            self.draw.between(-3, 3)
        };
        self.bytes.extend_from_slice(b"VL")?;
        self.bytes.extend_from_slice(&reading.to_be_bytes())?;
        Ok(())
    }

    // A round by Every or Hull, at times under a cap.
    fn push_policy(&mut self) -> Result<(), Halt> {
        if self.draw.once_in(3) {
            self.bytes.extend_from_slice(b"CP")?;
            let most = if self.draw.once_in(9) {
                self.draw.byte()
            } else {
                2
            };
            self.bytes.push(most)?;
        }
        if self.draw.once_in(2) {
            self.bytes.extend_from_slice(b"RE")?;
            return Ok(());
        }
        let share = u16::try_from(self.draw.below(10_100)).unwrap_or(0);
        self.bytes.extend_from_slice(b"RH")?;
        self.bytes.extend_from_slice(&share.to_be_bytes())?;
        Ok(())
    }

    // Whether more answers are due: the second implementation finds the record cut short at its end.
    fn is_short(&self) -> Result<bool, Halt> {
        let mut lines = vec![in self.heap; Line::whole(None); ROWS]?;
        let mut table = Table {
            heap: self.heap,
            lines: &mut lines,
        };
        let short = RefusedAt {
            cause: Cause::CutShort,
            place: self.bytes.len(),
        };
        Ok(settled(replay(&self.bytes, &mut table))?.err() == Some(short))
    }

    // Answers until no more are due.
    fn push_answers(&mut self) -> Result<(), Halt> {
        for _answer in 0..60 {
            if !self.is_short()? {
                break;
            }
            self.push_answer()?;
        }
        Ok(())
    }
}

// A record of some rounds.
fn grown(heap: Global, draw: &mut Draw) -> Result<Vec<u8>, Halt> {
    let mut bytes = Vec::new(heap);
    bytes.extend_from_slice(b"BG")?;
    let Frame { n, finest } = any_frame(draw);
    bytes.extend_from_slice(&[n, finest])?;
    let mut growing = Growing { heap, draw, bytes };
    growing.push_answer()?;
    for _round in 0..growing.draw.below(4) {
        growing.push_policy()?;
        growing.push_answers()?;
    }
    Ok(growing.bytes)
}

// A record that is cut, changed in a byte, or has some bytes more.
fn damaged(heap: Global, whole: &[u8], draw: &mut Draw) -> Result<Vec<u8>, Halt> {
    let place = draw.place(whole.len());
    let mut bytes = Vec::from_slice(heap, whole.get(..place).unwrap_or(whole))?;
    if let Some((byte, after)) = whole.get(place..).and_then(|rest| rest.split_first()) {
        match draw.below(4) {
            0 => return Ok(bytes),
            1 => bytes.push(draw.byte())?,
            2 => bytes.extend_from_slice(&draw.pick(&MARKS))?,
            _ => bytes.push(byte.wrapping_add(1))?,
        }
        bytes.extend_from_slice(after)?;
    }
    if draw.once_in(3) {
        bytes.extend_from_slice(&draw.pick(&MARKS))?;
    }
    Ok(bytes)
}

// A record and some damaged ones, each on tables of its own.
fn compare_record(tally: &mut Tally, seed: u64) -> Result<(), Halt> {
    let heap = tally.heap;
    let mut draw = Draw::new(seed);
    let whole = grown(heap, &mut draw)?;
    let mut own = Tables::new(heap, &mut draw, ROWS)?;
    tally.replay(&whole, &mut own.all())?;
    for _record in 0..DAMAGED {
        let bytes = damaged(heap, &whole, &mut draw)?;
        let rows = draw.place(60);
        let mut own = Tables::new(heap, &mut draw, rows)?;
        tally.replay(&bytes, &mut own.all())?;
    }
    Ok(())
}

// All records; each is a run of its own.
pub fn all_records(tally: &mut Tally) -> Result<(), Halt> {
    for seed in 0..RECORDS {
        tally.next_run(None);
        compare_record(tally, seed)?;
    }
    Ok(())
}
