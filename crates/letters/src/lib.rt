//! Letters between parts, and their bytes.
#![tactic(auto)]

mod bodies;
mod decoding;
mod encoding;
mod entries;
mod fault;
mod fields;
mod laws;
mod letter;
mod lists;
mod shared;
mod spelling;

pub use decoding::decode;
pub use encoding::encode;
pub use fault::LetterFault;
pub use laws::no_spelling_begins_another;
pub use letter::{Body, Letter, LetterKind, Post, Reply};
pub use shared::{Shared, SharedPlaces, are_ascending};

#[cfg(test)]
mod tests;
