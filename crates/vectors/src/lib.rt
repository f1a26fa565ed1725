// The six calls on vectors: which one a plane takes, the clamp, the position and the step in the reference; and, passed on from the crates below,
// the search, the best vectors and the list of a block below 8x8.
#![tactic(auto)]

mod inter_mv;

pub use inter_mv::{
    BlockGrid, ClampedMv, ScaleGeom, ScaledMv, SelectedMv, clamp_mv, scale_mv, select_mv,
};
pub use lists::{Best, MvPair, MvRefs, find_best_ref_mvs, find_mv_refs};
pub use records::{LentTables, MvRefGeometry, Pairs};
pub use sub8x8::append_sub8x8_mvs;
