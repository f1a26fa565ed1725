// Where in the reference one axis of a vector leads, and its step, below `vectors`. Its functions may have `requires`.
#![tactic(auto)]

mod scale;

pub use scale::{is_legal16, placed, start_axis, step_axis, usable};
