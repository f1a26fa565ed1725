// A view of a reference's frame, over the whole prediction; the view of a plane stands below, in `views`.
#![tactic(auto)]

mod ref_frame;

pub use ref_frame::{RefFrame, predict_inter};
