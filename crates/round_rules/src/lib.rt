//! The rules by which a part goes through the phases of a round with passes.
#![tactic(auto)]

mod kinds;
mod laws;
mod stages;

pub use kinds::is_of_kind;
pub use laws::{passes_are_shared, phases_come_in_turn};
pub use stages::{last_phase, pass_kind, passes_before, phase_kind};

#[cfg(test)]
mod tests;
