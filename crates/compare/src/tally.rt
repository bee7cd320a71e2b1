// What is compared, and what was compared so far.
use crate::halt::Halt;
use crate::seen::{Asked, Beside, Call, Difference, Seen};
use crate::setting::Setting;
use crate::tables::{Pair, line_of};
use crate::why::Why;
use std::alloc::{AllocError, Global};
use std::collections::BTreeMap;

mod calls;
mod records;

// What was compared so far.
#[derive(Drop)]
pub struct Tally {
    pub heap: Global,
    // the run at hand, what it is made of, and its calls
    pub run: u64,
    pub setting: Option<Setting>,
    pub number: u64,
    pub calls: u64,
    pub rows: u64,
    // the boxes at the ends of the runs: all, and the most of a run
    pub boxes: u64,
    pub most: usize,
    // how often each cause was why both refused
    pub refusals: BTreeMap<Why, u64>,
    // why the last call was refused, if it was
    pub last: Option<Why>,
}

impl Tally {
    pub fn new(heap: Global) -> Tally {
        Tally {
            heap,
            run: 0,
            setting: None,
            number: 0,
            calls: 0,
            rows: 0,
            boxes: 0,
            most: 0,
            refusals: BTreeMap::new(heap),
            last: None,
        }
    }

    // The next run.
    pub fn next_run(&mut self, setting: Option<Setting>) {
        self.run = self.run.saturating_add(1);
        self.setting = setting;
        self.number = 0;
    }

    // A run ends with so many boxes.
    pub fn end_run(&mut self, boxes: usize) {
        self.boxes = self.boxes.saturating_add(u64::try_from(boxes).unwrap_or(0));
        self.most = self.most.max(boxes);
    }

    // A difference at the call at hand.
    fn differs(&self, asked: Asked, package: Seen, beside: Beside, other: Seen) -> Halt {
        Halt::Differs(Difference {
            run: self.run,
            number: self.number,
            asked,
            package,
            beside,
            other,
        })
    }

    // Compares what the package gave or has with another.
    fn compare(
        &self,
        asked: Asked,
        package: Seen,
        beside: Beside,
        other: Seen,
    ) -> Result<(), Halt> {
        if package == other {
            Ok(())
        } else {
            Err(self.differs(asked, package, beside, other))
        }
    }

    // Compares what both gave or have.
    fn same(&self, asked: Asked, package: Seen, reference: Seen) -> Result<(), Halt> {
        self.compare(asked, package, Beside::Reference, reference)
    }

    // Compares what both gave with what docs/ says.
    pub fn told(&self, call: Call, package: Seen, docs: Seen) -> Result<(), Halt> {
        self.compare(Asked { call, rows: 0 }, package, Beside::Docs, docs)
    }

    // Compares why the last call was refused, if it was, with the number that docs/ gives.
    pub fn told_why(&self, call: Call, docs: Option<u8>) -> Result<(), Halt> {
        let package = self.last.map_or(Seen::Done, Seen::Refused);
        let docs = docs.map(Why::told);
        self.told(call, package, docs.map_or(Seen::Done, Seen::Refused))
    }

    // Counts the last call under its cause, if it was refused.
    fn count_refusal(&mut self) -> Result<(), AllocError> {
        if let Some(why) = self.last {
            let count = self.refusals.entry(why)?.or_insert(0);
            *count = count.saturating_add(1);
        }
        Ok(())
    }

    // Counts a call, and compares what both gave. A difference is told even where there is no memory to count.
    fn see(&mut self, asked: Asked, package: Seen, reference: Seen) -> Result<(), Halt> {
        self.calls = self.calls.saturating_add(1);
        self.number = self.number.saturating_add(1);
        self.last = package.why();
        let counted = self.count_refusal();
        self.same(asked, package, reference)?;
        Ok(counted?)
    }

    // Compares the tables, row by row.
    fn tables(&mut self, asked: Asked, table: &Pair<'_>) -> Result<(), Halt> {
        let count = table.rows.len();
        self.same(asked, Seen::Rows(count), Seen::Rows(table.lines.len()))?;
        self.rows = self.rows.saturating_add(u64::try_from(count).unwrap_or(0));
        for (place, (row, line)) in table.rows.iter().zip(table.lines.iter()).enumerate() {
            let shown = line_of(row);
            if shown != *line {
                self.same(asked, Seen::Row(place, shown), Seen::Row(place, *line))?;
            }
        }
        Ok(())
    }
}
