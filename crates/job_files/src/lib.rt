//! Reads the files of a job beside its mesh: the sizes that edges are to have, the part of each
//! tetrahedron, and the order in which letters are taken.
//!
//! Blank lines are skipped and counted, and words are divided by spaces and tabs. A number is an
//! optional sign and digits. The fault that is told is that of the first line that has one.
//!
//! - A size file is the line `default H` and, behind it, up to 10,000 lines
//!   `box X0 Y0 Z0 X1 Y1 Z1 H`. H is from 1 to 2^30, a coordinate at most 2^30 in absolute value.
//! - A partition file has a line for each tetrahedron, in the order of the mesh file, with the number
//!   of its part, from 0 on. METIS writes such files.
//! - A schedule file has a line for each pick, a number from 0 to 2^64 - 1, and may have none.
#![tactic(auto)]

mod fault;
mod partition;
mod schedule;
mod sizes;
mod words;

pub use fault::JobFault;
pub use partition::read_partition;
pub use schedule::read_schedule;
pub use sizes::read_size;

#[cfg(test)]
mod tests;
