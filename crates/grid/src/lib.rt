// The cells of a direction, and the intervals that they are cut into.
#![tactic(auto)]

pub mod interval;
