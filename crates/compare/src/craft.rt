// Boxes made up for a table that is then the search's own, so that fronts of every kind come.
use crate::desk::Desk;
use crate::draw::Draw;
use crate::setting::Setting;
use crate::tables::cells;
use reference::lines::{Answer, Line, Side};

// The kinds of readings that a table is given.
#[derive(Clone, Copy)]
enum Kind {
    Wide,
    Small,
    NotFeasible,
    High,
    Low,
    // readings grow with the size: a part of the side, three to this power
    InProportion { part: u8 },
}

// A reading that is in proportion to a side, now and then one off.
fn in_proportion(draw: &mut Draw, level: u8, part: u8) -> i32 {
    let share = cells(level.saturating_add(part));
    let times = u32::try_from(draw.below(3)).unwrap_or(0);
    let off = if draw.once_in(4) {
        draw.between(-1, 1)
    } else {
        0
    };
    let reading = i32::try_from(share.wrapping_mul(times)).unwrap_or(0);
    reading.saturating_add(off).min(1_000_000_000)
}

// The first cell of an interval of a level.
fn any_first(draw: &mut Draw, level: u8) -> u32 {
    let side = cells(level);
    let count = cells(0).checked_div(side).unwrap_or(0);
    let which = u32::try_from(draw.below(u64::from(count))).unwrap_or(0);
    which.wrapping_mul(side)
}

impl Kind {
    // Any of them. The part is drawn at each kind.
    fn any(draw: &mut Draw) -> Kind {
        let number = draw.below(8);
        let part = u8::try_from(draw.below(6)).unwrap_or(0);
        match number {
            0 => Kind::Wide,
            1 => Kind::Small,
            2 => Kind::NotFeasible,
            3 => Kind::High,
            4 => Kind::Low,
            _ => Kind::InProportion { part },
        }
    }

    // An answer of a box with a level.
    fn answer(self, draw: &mut Draw, level: u8) -> Answer {
        if draw.once_in(12) {
            return Answer::NotFeasible;
        }
        let reading = match self {
            Kind::Wide => draw.between(-1_000_000_000, 1_000_000_000),
            Kind::Small => draw.between(-4, 4),
            Kind::NotFeasible => return Answer::NotFeasible,
            Kind::High => draw.between(999_999_990, 1_000_000_000),
            Kind::Low => draw.between(-1_000_000_000, -999_999_990),
            Kind::InProportion { part } => in_proportion(draw, level, part),
        };
        Answer::Reading(reading)
    }

    // A box of a search.
    fn any_box(self, draw: &mut Draw, setting: Setting) -> Line {
        let low = u8::try_from(draw.below(u64::from(setting.frame.finest))).unwrap_or(0);
        let mut line = Line::whole(Some(self.answer(draw, low)));
        for side in line.sides.iter_mut().take(setting.frame.directions()) {
            let level = if draw.once_in(3) {
                low.saturating_add(1)
            } else {
                low
            };
            *side = Side {
                first: any_first(draw, level),
                level,
            };
        }
        line
    }
}

impl Desk<'_> {
    // Replaces the first rows by boxes.
    pub fn craft(&mut self, boxes: usize) {
        let kind = Kind::any(&mut self.draw);
        let setting = self.setting;
        let draw = &mut self.draw;
        self.own
            .first(boxes)
            .fill_with(|| kind.any_box(draw, setting));
    }
}
