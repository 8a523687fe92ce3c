//! Why a depot or a sink refused.
use thiserror::Error;

/// Why a file was not fetched.
#[derive(Clone, Copy, Debug, PartialEq, Eq, Error)]
pub enum FetchFault {
    /// The depot could not read.
    #[error("the file could not be read")]
    Failed,
    /// The depot has no file of this name.
    #[error("there is no such file")]
    Absent,
    /// The file has more bytes than the caller takes.
    #[error("the file is too long")]
    TooLong,
    /// Memory ran out.
    #[error("out of memory")]
    Memory,
}

/// Why a file was not stored.
#[derive(Clone, Copy, Debug, PartialEq, Eq, Error)]
pub enum StoreFault {
    /// The depot could not write. The file may hold the front of what was to be stored.
    #[error("the file could not be written")]
    Failed,
    /// Memory ran out.
    #[error("out of memory")]
    Memory,
}

/// Why bytes were not put.
#[derive(Clone, Copy, Debug, PartialEq, Eq, Error)]
pub enum SinkFault {
    /// The sink could not write. The front of the bytes may have been put.
    #[error("the bytes could not be written")]
    Failed,
    /// Memory ran out.
    #[error("out of memory")]
    Memory,
}
