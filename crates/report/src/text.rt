// The text of a search at rest with its table, and of a refusal.
ghost use Rattle.std.specs.Prelude.{◌≡◌, ℕ, ◌<◌, ◌≤◌, IfOk, Some, string_bytes};
ghost use Rattle.grid.specs.Grid.{IsInterval};
ghost use Rattle.table.specs.Boxes.{IsBox, Own};
ghost use Rattle.table.specs.Rows.{first_of, level_of};
ghost use Rattle.report.specs.Text.{best_text, box_text, boxes_text, head_text, refusal_text, sides_text};
ghost use Rattle.report.specs.Outcome.{Adds, Written};
ghost use Rattle.report.specs.declared.text.NoText.TheVariants.{Memory, Refused};

use refusal::Refusal;
use search::states::Rest;
use std::alloc::{AllocError, Global};
use std::fmt;
use table::rows::Row;
use table::shape::Shape;

// Why there is no text: a refusal of the search, or no memory.
#[derive(Clone, Copy)]
pub enum NoText {
    Refused(Refusal),
    Memory,
}

impl From<Refusal> for NoText {
    ghost from_gives = { λ why r. r ≡ Refused why };

    fn from(why: Refusal) -> NoText {
        NoText::Refused(why)
    }
}

impl From<AllocError> for NoText {
    ghost from_gives = { λ _ r. r ≡ Memory };

    fn from(_error: AllocError) -> NoText {
        NoText::Memory
    }
}

// What is written to a `String` fails for want of memory alone.
impl From<fmt::Error> for NoText {
    ghost from_gives = { λ _ r. r ≡ Memory };

    fn from(_error: fmt::Error) -> NoText {
        NoText::Memory
    }
}

// The sides of a box in its first n directions, by rising direction.
#[derive(Clone, Copy)]
struct Sides {
    row: Row,
    n: usize,
    ghost few: { n ≤ 6 },
    ghost intervals: { (d : ℕ) → d < n → IsInterval (first_of row d) (level_of row d) },
}

// Each side with a space before it.
impl fmt::Display for Sides {
    ghost output = { λ x. Some (sides_text x.row x.n) };

    fn fmt<W: fmt::Write>(&self, f: &mut fmt::Formatter<W>) -> fmt::Result {
        for span in &self.row.spans[..self.n] {
            match span.interval() {
                Some(side) => write!(f, " {side}")?,
                None => unreachable(),
            }
        }
        Ok(())
    }
}

// Each of these says by `Adds` what it adds, which is another text in each.
// Adds the first line: directions, finest level, closed rounds, boxes.
fn push_head(out: &mut String, rest: &Rest) -> Result<(), AllocError>
    ensures { Adds out.old result (head_text rest.now) out.new }
{
    let shape = rest.shape();
    let n = shape.n;
    let finest = shape.finest;
    let rounds = rest.rounds();
    let boxes = rest.boxes();
    write!(
        out,
        "directions {n} finest {finest} rounds {rounds} boxes {boxes}\n"
    )
}

// Adds the line of a box: its row, its reading or a dash, its sides.
fn push_box(out: &mut String, shape: Shape, j: usize, row: &Row) -> Result<(), AllocError>
    requires { IsBox shape.n shape.finest row.now }
    ensures { Adds out.old result (box_text shape.n j row.now) out.new }
{
    let answer = row.entry.answer();
    let sides = Sides {
        row: *row,
        n: usize::from(shape.n),
    };
    write!(out, "{j} {answer}{sides}\n")
}

// Adds the lines of the boxes.
fn push_boxes(out: &mut String, shape: Shape, table: &[Row], boxes: usize) -> Result<(), AllocError>
    requires { Own shape.n shape.finest boxes table.now }
    ensures { Adds out.old result (boxes_text shape.n table.now boxes) out.new }
{
    for (j, row) in table[..boxes].iter().enumerate() {
        push_box(out, shape, j, row)?;
    }
    Ok(())
}

// Adds the last line: the row of the best box, or a dash.
fn push_best(out: &mut String, best: Option<(usize, i32)>) -> Result<(), AllocError>
    ensures { Adds out.old result (best_text best) out.new }
{
    match best {
        Some((row, _)) => write!(out, "best {row}\n"),
        None => write!(out, "best -\n"),
    }
}

// The text of a search at rest with its table, or why there is none.
pub fn search_text(heap: Global, rest: &Rest, table: &[Row]) -> Result<String, NoText>
    ensures { Written rest.now table.now result }
{
    let best = rest.best(table)?;
    let mut out = String::new(heap);
    push_head(&mut out, rest)?;
    push_boxes(&mut out, rest.shape(), table, rest.boxes())?;
    push_best(&mut out, best)?;
    Ok(out)
}

// A refusal by its number and its place. Any number is taken: a cause would ask more of the caller.
pub fn refusal_text(heap: Global, number: u8, place: usize) -> Result<String, AllocError>
    ensures { IfOk result (λ s. string_bytes s ≡ refusal_text number place) }
{
    format!(in heap; "refused {number} at {place}\n")
}
