// Both passes over a block. `blocks` calls them; `pair_passes` takes from them what filter 3 shares with the others.
#![tactic(auto, using(taps::proofs::Loops::paint_none))]

mod passes;
mod shapes;

pub use passes::{block, gather_rows, lifted_row, pass_rows, rows_averaged, straight};
pub use shapes::{Area, Axis};
