// The calls on the candidates of neighbours: the search with its clamp, the best vectors; and for `sub8x8`, above, what its call shares with them.
#![tactic(auto)]

mod mv_ref;

pub use mv_ref::{
    Best, MvPair, MvRefs, clamp_ref, find_best_ref_mvs, find_mv_refs, search_allowed,
};
