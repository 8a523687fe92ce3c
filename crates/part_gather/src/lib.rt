//! How the cavities of operations come together at the part that leads them, and are filled there.
#![tactic(auto)]

mod applying;
mod cavities;
mod delivering;
mod filling;
mod marks;

pub use applying::apply;
pub use delivering::deliveries;

#[cfg(test)]
mod tests;
