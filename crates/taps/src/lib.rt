// The filters' taps, and what all rows of results are told in. The crates of rows stand on it.
#![tactic(auto)]

mod eight;
mod plain;
mod taps;

pub use eight::Taps;
pub use plain::{
    ORIGIN, held, left_of, lesser, moved, repeated, row_averaged, row_clipped, run_copied,
};
pub use taps::{subpel_table, taps_at};
