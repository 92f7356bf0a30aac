//! Why a call on bytes did not end well.

use thiserror::Error;

/// A read or a write failed.
#[derive(Clone, Copy, Debug, PartialEq, Eq, Error)]
#[error("the call failed")]
pub struct Failed;

/// Why not all bytes were read.
#[derive(Clone, Copy, Debug, PartialEq, Eq, Error)]
pub enum ReadEnd {
    /// A read failed.
    #[error("a read failed")]
    Fault,
    /// More bytes are left than were asked for.
    #[error("there are too many bytes")]
    TooLong,
    /// Memory ran out.
    #[error("no memory")]
    Memory,
}
