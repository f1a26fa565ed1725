// The candidate search over lent tables, before clamping: what each place offers, and which two are held.
#![tactic(auto)]

mod find;
mod held;
mod scan;
mod sub_block;

pub use find::{Found, search};
pub use held::Held;
