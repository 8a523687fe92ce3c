//! Why a carrier refused.
use thiserror::Error;

/// Why a letter was neither posted nor handed out.
#[derive(Clone, Copy, Debug, PartialEq, Eq, Error)]
pub enum CarrierFault {
    /// The carrier could not do it.
    #[error("the carrier failed")]
    Failed,
    /// Memory ran out.
    #[error("out of memory")]
    Memory,
}
