// How far a block can reach, below `samples`: what a start and steps may be, and the rectangle of a plane that a block can read.
#![tactic(auto)]

mod reaching;

pub use reaching::{Reach, Span, block_reach, readable, starts};
