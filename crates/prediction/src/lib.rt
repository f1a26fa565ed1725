// The whole prediction of a block into its destination, and how far it can reach. It uses only what the calls below it promise.
#![tactic(auto)]

mod inter_pred;

pub use inter_pred::predict_inter;
pub use reach_inter::inter_reach;
