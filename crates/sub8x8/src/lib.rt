// The list of a block below 8x8, above the search. Its definition stands beside those of the search and of the best vectors, in `lists`.
#![tactic(auto)]

mod append;

pub use append::append_sub8x8_mvs;
