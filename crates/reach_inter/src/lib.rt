// How far a whole prediction can reach, below `prediction`.
#![tactic(auto)]

mod reaching;

pub use reaching::inter_reach;
