// The policy that chooses the sizes that some slope makes potentially optimal.
#![tactic(auto)]

pub mod hull;
