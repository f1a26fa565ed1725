// An accepted block: its samples, from one reference or from two. What is accepted is `samples`' to judge.
#![tactic(auto)]

mod block;
mod reference;

pub use base::Stepping;
pub use block::{BlockShape, predict_accepted, predict_one, predict_two};
pub use reference::Reference;
