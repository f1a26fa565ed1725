// The standard's constant tables of the candidate search, below `records` and `candidates`. In a crate of their own since they are dear to check.
#![tactic(auto)]

mod places;

pub use places::{context_of, counter_of, places_of, step_of};
