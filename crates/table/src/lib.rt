// Tables of boxes: their rows, what makes a row a box, the first box of each rank, the front.
#![tactic(auto)]

pub mod firsts;
pub mod fronts;
pub mod look;
pub mod rows;
pub mod shape;
