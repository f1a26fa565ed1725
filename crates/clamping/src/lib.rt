// The two clamps on one axis, below `vectors` and `lists`: of a plane's vector, of a candidate; block sizes. Its functions may have `requires`.
#![tactic(auto)]

mod axis;
mod border;
mod clamp;
mod partition;

pub use axis::Axis;
pub use clamp::{on_axis, shift};
pub use partition::{num_8x8_high, num_8x8_wide};
