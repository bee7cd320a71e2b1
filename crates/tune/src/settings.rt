// The numbers of the search.

// How many dials the instrument has: the directions of the search.
pub const DIALS: usize = 2;

// The finest level: a side of a box is then one step of a dial.
pub const FINEST: u8 = 6;

// The share of the hull, in ten thousandths.
pub const SHARE: u16 = 100;

// The most rounds.
pub const ROUNDS: usize = 7;

// The rows of the table.
pub const ROWS: usize = 200;
