// Rows of results whatever the step and wherever the plane ends. Only `passes` calls it.
#![tactic(auto)]

mod down;
mod rows;

pub use down::{row_down, row_down_mean};
pub use rows::{gather, row_across};
pub use taps::held;
