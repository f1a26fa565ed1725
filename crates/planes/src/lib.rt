// A reference plane lent in two bands, and a row of it.
#![tactic(auto)]

mod bands;
mod plane;

pub use bands::Bands;
pub use plane::{PlaneGeom, fits, holds, plane_row, row_or_empty, row_read, sized};
