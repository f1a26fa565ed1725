// Rows of filter 3, which looks at two samples. Only `pair_passes` calls it.
#![tactic(auto)]

mod pairs;
mod phase;

pub use pairs::{row_stepped, rows_any, rows_are_low, rows_low};
pub use phase::Phase;
