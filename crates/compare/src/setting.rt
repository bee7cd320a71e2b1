// What a run is made of: the search, its table, its answers and its wrong calls.
use crate::draw::Draw;
use crate::plan::Plan;
use crate::seen::ROOM;
use reference::frame::Frame;
use reference::lines::Answer;
use std::fmt;

// Where the answers of a run come from.
#[derive(Clone, Copy, Debug)]
pub enum Style {
    // few numbers, so that many are equal
    Few,
    // always the same number
    Equal,
    // any numbers in range
    Wide,
    // the ends of the range, 0 and "not feasible"
    Edges,
    // always "not feasible"
    Never,
    // small numbers, and now and then "not feasible"
    Mixed,
    // by how far the cell is from another, "not feasible" in a corner
    Bowl,
}

const STYLES: [Style; 7] = [
    Style::Few,
    Style::Equal,
    Style::Wide,
    Style::Edges,
    Style::Never,
    Style::Mixed,
    Style::Bowl,
];

// Every where there is no share, else Hull.
const SHARES: [Option<u16>; 6] = [None, Some(0), Some(1), Some(100), Some(1_000), Some(10_000)];

const CAPS: [Option<u8>; 5] = [None, Some(1), Some(2), Some(3), Some(114)];

// The ends of the range, 0, and "not feasible".
const EDGES: [Answer; 4] = [
    Answer::Reading(-1_000_000_000),
    Answer::Reading(1_000_000_000),
    Answer::Reading(0),
    Answer::NotFeasible,
];

// Numbers that are no readings.
const WRONG: [i32; 4] = [1_000_000_001, -1_000_000_001, i32::MAX, i32::MIN];

// By which plan the rounds are opened.
#[derive(Clone, Copy)]
pub enum Plans {
    // each round by this one
    Same(Plan),
    // each round by a drawn one; this one is made before the first
    Drawn(Plan),
}

impl Plans {
    // The plan that is made before the first round.
    pub fn first(self) -> Plan {
        match self {
            Plans::Same(plan) | Plans::Drawn(plan) => plan,
        }
    }
}

impl fmt::Display for Plans {
    fn fmt<W: fmt::Write>(&self, f: &mut fmt::Formatter<W>) -> fmt::Result {
        match self {
            Plans::Same(plan) => write!(f, "{plan}"),
            Plans::Drawn(plan) => write!(f, "{plan}, then drawn ones"),
        }
    }
}

#[derive(Clone, Copy)]
pub struct Setting {
    pub frame: Frame,
    pub rows: usize,
    pub rounds: usize,
    pub plans: Plans,
    pub style: Style,
    // whether the boxes are replaced by others before each round
    pub crafted: bool,
    // a wrong call once in so many steps, if at all
    pub mischief: Option<u64>,
}

impl fmt::Display for Setting {
    fn fmt<W: fmt::Write>(&self, f: &mut fmt::Formatter<W>) -> fmt::Result {
        let Setting {
            frame,
            rows,
            rounds,
            plans,
            style,
            crafted,
            mischief,
        } = *self;
        write!(f, "{frame} rows {rows} rounds {rounds} {plans}")?;
        write!(f, " answers {style:?} crafted {crafted}")?;
        match mischief {
            Some(times) => write!(f, " wrong calls 1 in {times}"),
            None => write!(f, " no wrong calls"),
        }
    }
}

// Any directions and finest level that a search may have.
pub fn any_frame(draw: &mut Draw) -> Frame {
    Frame {
        n: draw.up_to(6),
        finest: draw.up_to(19),
    }
}

// A style by its number.
pub fn style_at(number: u64) -> Style {
    STYLES[(number % 7) as usize]
}

// A cap by its number.
fn cap_at(number: u64) -> Option<u8> {
    CAPS[(number % 5) as usize]
}

// How many plans there are with one cap at most.
pub const PLANS: u64 = 30;

// A plan by its number; from `PLANS` on with a second cap.
pub fn plan_at(number: u64) -> Plan {
    Plan {
        share: SHARES[(number % 6) as usize],
        caps: [cap_at(number / 6), cap_at(number / PLANS)],
    }
}

// A square of a distance between a cell and another, in coarse steps.
fn square(cell: u32) -> i64 {
    let step = i64::from(cell / 1_594_323);
    let away = step.wrapping_sub(300);
    away.wrapping_mul(away)
}

// The sum of the squares of the first cells.
fn bowl(cells: &[u32; ROOM], frame: Frame) -> Answer {
    let sum = cells
        .iter()
        .take(frame.directions())
        .fold(-1_000i64, |sum, cell| sum.wrapping_add(square(*cell)));
    if sum > 500_000 {
        return Answer::NotFeasible;
    }
    i32::try_from(sum).map_or(Answer::NotFeasible, Answer::Reading)
}

impl Setting {
    // An answer at a cell.
    pub fn answer_at(&self, draw: &mut Draw, cells: &[u32; ROOM]) -> Answer {
        match self.style {
            Style::Few => Answer::Reading(draw.between(0, 3)),
            Style::Equal => Answer::Reading(7),
            Style::Wide => Answer::Reading(draw.between(-1_000_000_000, 1_000_000_000)),
            Style::Edges => draw.pick(&EDGES),
            Style::Never => Answer::NotFeasible,
            Style::Mixed => {
                if draw.once_in(4) {
                    Answer::NotFeasible
                } else {
                    Answer::Reading(draw.between(-50, 50))
                }
            }
            Style::Bowl => bowl(cells, self.frame),
        }
    }
}

// A number that is no reading.
pub fn wrong_reading(draw: &mut Draw) -> Answer {
    Answer::Reading(draw.pick(&WRONG))
}
