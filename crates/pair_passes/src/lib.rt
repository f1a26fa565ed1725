// Both passes of filter 3 over a block. Only `blocks` calls it.
#![tactic(auto, using(taps::proofs::Loops::paint_none))]

mod both;

pub use both::pair_block;
