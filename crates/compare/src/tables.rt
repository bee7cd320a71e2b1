// A table of the package and one of the reference, with the same numbers.
use crate::draw::Draw;
use crate::halt::Halt;
use order::answer::Answer as Measured;
use reference::lines::{Answer, Line, Mark, Rows, Side, Table, WIDTH};
use std::alloc::Global;
use table::rows::{Entry, Row, Span};

// The answer as the package has it. This and the next two are no `From`: neither side's types are of this crate.
pub fn measured(answer: Answer) -> Measured {
    match answer {
        Answer::Reading(x) => Measured::Reading(x),
        Answer::NotFeasible => Measured::NotFeasible,
    }
}

// The row of a line. This function and the next are all that knows how a row is made.
fn row_of(line: &Line) -> Row {
    let entry = match line.mark.answer() {
        Some(answer) => Entry::Answered(measured(answer)),
        None => Entry::Waiting,
    };
    let mut row = Row::whole(entry);
    row.spans = line.sides.map(|side| Span {
        first: side.first,
        level: side.level,
    });
    row
}

// The line of a row.
pub fn line_of(row: &Row) -> Line {
    let answer = match row.entry {
        Entry::Waiting => None,
        Entry::Answered(Measured::Reading(x)) => Some(Answer::Reading(x)),
        Entry::Answered(Measured::NotFeasible) => Some(Answer::NotFeasible),
    };
    let sides = row.spans.map(|span| Side {
        first: span.first,
        level: span.level,
    });
    let mark = Mark::from(answer);
    Line { sides, mark }
}

// Two lists of one length: each side is lent a slice of rows of its own kind.
#[derive(Drop)]
pub struct Tables {
    rows: Vec<Row>,
    lines: Vec<Line>,
}

// The first rows of both tables.
#[derive(Drop)]
pub struct Pair<'a> {
    pub rows: &'a mut [Row],
    pub lines: &'a mut [Line],
}

// Any answer or none, now and then a number out of range.
fn any_answer(draw: &mut Draw) -> Option<Answer> {
    match draw.below(6) {
        0 => None,
        1 => Some(Answer::NotFeasible),
        2 => Some(Answer::Reading(draw.between(1_000_000_001, 2_000_000_000))),
        3 => Some(Answer::Reading(draw.between(-2_000_000_000, -1_000_000_001))),
        _ => Some(Answer::Reading(draw.between(-9, 9))),
    }
}

// A line of any numbers.
fn any_line(draw: &mut Draw) -> Line {
    let mut line = Line::whole(any_answer(draw));
    for side in &mut line.sides {
        *side = Side {
            first: draw.word(),
            level: draw.byte(),
        };
    }
    line
}

// The cells of a side of a level.
pub fn cells(level: u8) -> u32 {
    (0..level).fold(1_162_261_467, |cells: u32, _| cells / 3)
}

// Changes one number of a line, mostly by little.
fn change(draw: &mut Draw, line: &mut Line) {
    let d = draw.place(WIDTH).min(WIDTH - 1);
    let side = &mut line.sides[d];
    match draw.below(10) {
        0 => side.level = side.level.wrapping_add(1),
        1 => side.level = side.level.wrapping_sub(1),
        2 => side.level = draw.byte(),
        3 => side.first = side.first.wrapping_add(cells(side.level)),
        4 => side.first = side.first.wrapping_sub(cells(side.level)),
        5 => side.first = side.first.wrapping_add(1),
        6 => side.first = draw.word(),
        7 => side.level = 20,
        _ => line.mark = Mark::from(any_answer(draw)),
    }
}

impl Tables {
    // Tables of rows with any numbers.
    pub fn new(heap: Global, draw: &mut Draw, count: usize) -> Result<Tables, Halt> {
        let mut rows = Vec::with_capacity(heap, count)?;
        let mut lines = Vec::with_capacity(heap, count)?;
        for _ in 0..count {
            let line = any_line(draw);
            rows.push(row_of(&line))?;
            lines.push(line)?;
        }
        Ok(Tables { rows, lines })
    }

    // The line at a place.
    pub fn line(&self, place: usize) -> Option<Line> {
        self.rows.get(place).map(line_of)
    }

    // Writes a line into both tables.
    pub fn set(&mut self, place: usize, line: Line) {
        if let Some(old) = self.rows.get_mut(place) {
            *old = row_of(&line);
        }
        if let Some(old) = self.lines.get_mut(place) {
            *old = line;
        }
    }

    // Changes a number at a place in both tables.
    pub fn damage(&mut self, draw: &mut Draw, place: usize) {
        if let Some(mut line) = self.line(place) {
            change(draw, &mut line);
            self.set(place, line);
        }
    }

    // The first rows of both tables, at most so many.
    pub fn first(&mut self, most: usize) -> Pair<'_> {
        let rows = most.min(self.rows.len());
        let lines = most.min(self.lines.len());
        Pair {
            rows: &mut self.rows[..rows],
            lines: &mut self.lines[..lines],
        }
    }

    // All rows of both tables.
    pub fn all(&mut self) -> Pair<'_> {
        self.first(usize::MAX)
    }
}

impl Pair<'_> {
    // The table of the reference.
    pub fn second(&mut self, heap: Global) -> Table<'_> {
        Table {
            heap,
            lines: &mut *self.lines,
        }
    }

    // The same, to be read.
    pub fn second_rows(&self, heap: Global) -> Rows<'_> {
        Rows {
            heap,
            lines: self.lines,
        }
    }

    // Fills both tables with lines.
    pub fn fill_with<F: FnMut() -> Line>(self, mut next: F)
        requires { F.IsAlwaysCallable next }
    {
        let Pair { rows, lines } = self;
        for (row, line) in rows.iter_mut().zip(lines.iter_mut()) {
            let new = next();
            *row = row_of(&new);
            *line = new;
        }
    }
}
