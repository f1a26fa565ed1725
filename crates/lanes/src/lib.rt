// Rows of results of one phase, in 16-bit lanes. `kernels` and `passes` call it; `pairs` takes the top of samples from it.
#![tactic(auto)]

mod lanes;

pub use lanes::{either, first, rows_across, rows_down, top_of, top_of_run};
