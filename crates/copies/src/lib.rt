// Rows of copies. Only `passes` calls it.
#![tactic(auto)]

mod copy;

pub use copy::{row_held, rows_copied};
