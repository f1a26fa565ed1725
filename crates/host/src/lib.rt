// The C boundary: every public call under its own C name, and nothing else. include/knobspindle.h says the same in C.
#![tactic(auto)]

mod inter_pred_c;
mod mv_ref_c;
mod samples_c;
mod vectors_c;
