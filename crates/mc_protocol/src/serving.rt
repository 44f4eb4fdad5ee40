//! Why a run that serves one session ends early.

use thiserror::Error;

/// Why a run ended early.
#[derive(Debug, Drop, Error)]
pub enum ServeFault {
    /// The reader failed, or 2^40 calls of `Session::turn` were made.
    #[error("reading failed")]
    Read,
    /// The writer failed.
    #[error("writing failed")]
    Write,
    /// An allocation was refused.
    #[error("out of memory")]
    NoMemory,
}
