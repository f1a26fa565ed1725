// Which vector a plane takes, below `vectors`: means of sub-blocks, partners, legal lists. Its functions may have `requires`.
#![tactic(auto)]

mod block_mvs;
mod select;

pub use block_mvs::is_legal_block;
pub use select::{chosen, partnered};
