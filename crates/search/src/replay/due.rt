// What a record has to tell next.
use crate::states::{Rest, Round};
use policy::cap::Most;

// What is due.
#[derive(Drop)]
pub enum Due {
    // the beginning of a search
    Start,
    // the answer for the middle cell, after the directions and the finest level
    Centre(u8, u8),
    // a cap or a round, or the end
    Rest(Rest),
    // a round under a cap
    Capped(Rest, Most),
    // the answer for a point
    Points(Round, usize),
}
