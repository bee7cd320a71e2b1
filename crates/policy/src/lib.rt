// What a policy sees of a search, the rules that every policy keeps, and the policies Every and Cap.
#![tactic(auto)]

pub mod cap;
pub mod every;
pub mod front;
pub mod policy;
pub mod recordable;
