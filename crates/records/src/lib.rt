// The lent tables of the candidate search: where a place's record stands, whether it is inside, how it is read, whether it is legal.
#![tactic(auto)]

mod geometry;
mod records;
mod site;
mod tables;

pub use geometry::{MvRefGeometry, grid_ok, own};
pub use records::{legal_records, long_enough};
pub use site::Site;
pub use tables::{LentTables, Pairs, frame_at, mv_at, sub_at};
