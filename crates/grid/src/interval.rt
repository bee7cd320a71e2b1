// An interval of a direction: neighbouring cells, as many as its level says, at a multiple of their count.
ghost use Rattle.grid.specs.Grid.{IsInterval};

pub mod cut;
pub mod form;
pub mod parts;
pub mod text;

// The cells of a direction.
pub const CELLS: u32 = 1_162_261_467;

// The level of a single cell.
pub const DEEPEST: u8 = 19;

// Its first cell and its level; nothing but an interval has this type.
#[derive(Clone, Copy)]
pub struct Interval {
    first: u32,
    level: u8,
    ghost form: { IsInterval first level },
}
