// The text of a search with its table, and what is answered to a record.
#![tactic(auto)]

pub mod reply;
pub mod run;
pub mod text;
