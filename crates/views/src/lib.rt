// Views: what is lent of a reference, in one value beside its size. Each function takes a view apart and asks the call below, whose contract it keeps.
#![tactic(auto)]

mod ref_plane;

pub use ref_plane::{RefPlane, read_row, read_row_or_empty, row_answer};
