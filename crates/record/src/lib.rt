// Run records: the items of which a record is made, and reading one of them.
#![tactic(auto)]

pub mod item;
pub mod read;
