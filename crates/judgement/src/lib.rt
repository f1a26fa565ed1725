// Below `prediction`: whether a whole prediction is accepted, and where its block starts in each reference.
#![tactic(auto)]

mod judging;

pub use judging::{
    DestGeom, FrameGeom, InterPredArgs, Judged, Led, RefGeom, RefSource, judge, lead,
    not_refused_by, other_than, plane_geom,
};
