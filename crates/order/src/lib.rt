// Answers, records whose order is total, and the first of several of them.
#![tactic(auto)]

pub mod answer;
pub mod arrange;
pub mod least;
pub mod ordered;
pub mod records;
