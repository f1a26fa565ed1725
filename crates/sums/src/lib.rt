// What is made of eight samples and eight taps. The crates of rows stand on it.
#![tactic(auto)]

mod sums;

pub use sums::{one, one_low, one_wide};
