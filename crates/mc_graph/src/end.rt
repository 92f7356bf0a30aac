//! Why a row was refused.

use thiserror::Error;

/// Why a row of a flow or of a refuter was refused.
#[derive(Clone, Copy, Debug, PartialEq, Eq, Error)]
pub enum RowEnd {
    /// The vertex has a row.
    #[error("the vertex has a row")]
    Second,
    /// Memory ran out.
    #[error("no memory")]
    Memory,
}
