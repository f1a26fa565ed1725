// What every crate of Knobspindle stands on: the answer numbers, the two units of a vector, total helpers.
#![tactic(auto)]

mod number;
mod refusal;
mod units;

pub use number::{between, clip3, natural, within};
pub use refusal::{Refusal, told};
pub use units::{Eighth, Mv, PlaneMv, Sixteenth, Stepping, is_legal, is_legal_mv};
