// All runs, in their order.
use crate::draw::Draw;
use crate::halt::Halt;
use crate::plan::Plan;
use crate::runs::Runs;
use crate::setting::{PLANS, Plans, Setting, Style, any_frame, plan_at, style_at};
use crate::tables::Tables;
use crate::tally::Tally;
use reference::frame::Frame;
use reference::lines::Answer;

// Answers at the limits of what a beginning takes.
const ANSWERS: [Answer; 8] = [
    Answer::Reading(i32::MIN),
    Answer::Reading(-1_000_000_001),
    Answer::Reading(-1_000_000_000),
    Answer::Reading(0),
    Answer::Reading(1_000_000_000),
    Answer::Reading(1_000_000_001),
    Answer::Reading(i32::MAX),
    Answer::NotFeasible,
];

// Beginnings with all these answers.
fn begin_with_each(tally: &mut Tally, frame: Frame, tables: &mut Tables) -> Result<(), Halt> {
    for answer in ANSWERS {
        let _begun = tally.begin(frame, answer, &mut tables.all())?;
    }
    Ok(())
}

// Beginnings at the limits of the directions and the finest levels.
fn begin_at_each(tally: &mut Tally, tables: &mut Tables) -> Result<(), Halt> {
    for n in [0, 1, 2, 3, 4, 5, 6, 7, 255] {
        for finest in [0, 1, 2, 18, 19, 20, 255] {
            begin_with_each(tally, Frame { n, finest }, tables)?;
        }
    }
    Ok(())
}

// Beginnings on tables without a row, with one and with some.
fn beginnings(tally: &mut Tally) -> Result<(), Halt> {
    for rows in 0..3 {
        tally.next_run(None);
        let mut tables = Tables::new(tally.heap, &mut Draw::new(tally.run), rows)?;
        begin_at_each(tally, &mut tables)?;
    }
    Ok(())
}

// Every cap.
fn caps(tally: &mut Tally) -> Result<(), Halt> {
    tally.next_run(None);
    for most in 0..=255u8 {
        tally.make(Plan::EVERY.under(most))?;
    }
    Ok(())
}

// Shares at their limits.
fn shares(tally: &mut Tally) -> Result<(), Halt> {
    tally.next_run(None);
    for share in [0, 1, 9_999, 10_000, 10_001, 32_768, 65_535] {
        tally.make(Plan::hull(share))?;
    }
    Ok(())
}

// A run of more than a thousand boxes, if the policy opens large rounds.
fn large(n: u8, finest: u8, plan: Plan, style: Style) -> Setting {
    Setting {
        frame: Frame { n, finest },
        rows: 1_200,
        rounds: 200,
        plans: Plans::Same(plan),
        style,
        crafted: false,
        mischief: Some(200),
    }
}

impl Runs<'_> {
    // Runs by each plan.
    fn each_plan(&mut self, frame: Frame) -> Result<(), Halt> {
        for number in 0..PLANS {
            let mut draw = Draw::new(self.tally.run);
            self.run(Setting {
                frame,
                rows: draw.place(50).saturating_add(12),
                rounds: 3,
                plans: Plans::Same(plan_at(number)),
                style: style_at(self.tally.run),
                crafted: draw.once_in(3),
                mischief: draw.once_in(2).then_some(10),
            })?;
        }
        Ok(())
    }

    // Runs of each number of directions and each finest level.
    fn each_search(&mut self) -> Result<(), Halt> {
        for n in 1..=6u8 {
            for finest in 1..=19u8 {
                self.each_plan(Frame { n, finest })?;
            }
        }
        Ok(())
    }

    // Runs that are drawn.
    fn drawn(&mut self) -> Result<(), Halt> {
        for _ in 0..1_000 {
            let mut draw = Draw::new(self.tally.run);
            self.run(Setting {
                frame: any_frame(&mut draw),
                rows: draw.place(90),
                rounds: 12,
                plans: Plans::Drawn(plan_at(draw.below(PLANS))),
                style: style_at(draw.number()),
                crafted: draw.once_in(2),
                mischief: Some(draw.below(12)).filter(|times| *times > 0),
            })?;
        }
        Ok(())
    }

    // Runs of one direction that go down to each finest level.
    fn deep(&mut self) -> Result<(), Halt> {
        for finest in 1..=19u8 {
            self.run(Setting {
                frame: Frame { n: 1, finest },
                rows: 450,
                rounds: 22,
                plans: Plans::Same(Plan::EVERY),
                style: style_at(self.tally.run),
                crafted: false,
                mischief: Some(100),
            })?;
        }
        Ok(())
    }

    // Large runs.
    fn larges(&mut self) -> Result<(), Halt> {
        for setting in [
            large(1, 19, Plan::EVERY, Style::Wide),
            large(1, 6, Plan::EVERY, Style::Bowl),
            large(2, 19, Plan::EVERY, Style::Bowl),
            large(2, 3, Plan::hull(0), Style::Bowl),
            large(3, 19, Plan::EVERY, Style::Mixed),
            large(3, 19, Plan::hull(100), Style::Bowl),
            large(4, 10, Plan::EVERY.under(3), Style::Few),
            large(5, 19, Plan::hull(1_000), Style::Bowl),
            large(6, 19, Plan::EVERY, Style::Equal),
            large(6, 2, Plan::hull(10_000), Style::Mixed),
        ] {
            self.run(setting)?;
        }
        Ok(())
    }
}

// All of them.
pub fn all_runs(tally: &mut Tally) -> Result<(), Halt> {
    beginnings(tally)?;
    caps(tally)?;
    shares(tally)?;
    let last = Tables::new(tally.heap, &mut Draw::new(0), 10)?;
    let mut runs = Runs { tally, last };
    runs.each_search()?;
    runs.drawn()?;
    runs.deep()?;
    runs.larges()
}
