//! Where the marks of a pass's cavities are once the pass is made.
#![tactic(auto)]

pub mod laws;
