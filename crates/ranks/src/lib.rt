// Sets of ranks: membership, size, the lowest member, the m lowest.
#![tactic(auto)]

pub mod rank_set;
