// A search by dividing rectangles, on a table that the caller lends.
#![tactic(auto)]

mod answer;
pub mod begin;
mod best;
mod close;
mod cutting;
mod locate;
mod look;
pub mod once;
mod open;
pub mod replay;
pub mod side;
mod sides;
pub mod states;
pub mod worked;
