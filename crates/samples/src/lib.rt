// Samples: a row of a plane, what a block shows, from a position in one reference or two, and how far it can reach.
#![tactic(auto)]

mod block_inter_pred;

pub use block_inter_pred::block_inter_predict;
pub use blocks::{BlockShape, Reference, Stepping};
pub use planes::{PlaneGeom, row_or_empty, row_read};
pub use reach::{Reach, Span, block_reach};
