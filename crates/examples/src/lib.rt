// The worked examples of the rules.
#![tactic(auto)]

pub mod worked;
