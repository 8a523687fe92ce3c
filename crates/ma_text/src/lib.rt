//! The lines of text files, the words of lines, and whole numbers as words.
#![tactic(auto)]

mod blanks;
mod lines;
mod number;
mod words;
mod writing;

pub use lines::{Line, Lines};
pub use number::{NumberFault, digits, magnitude, natural, whole};
pub use words::next_word;
pub use writing::put_number;

#[cfg(test)]
mod tests;
