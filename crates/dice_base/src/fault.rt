//! The faults that many calls share.
use std::alloc::{AllocError, AllocFailed};
use thiserror::Error;

/// Memory was refused. No contract says when this comes.
#[derive(Clone, Copy, Debug, PartialEq, Eq, Error)]
#[error("out of memory")]
pub struct NoMemory;

impl From<AllocError> for NoMemory {
    fn from(_: AllocError) -> Self {
        NoMemory
    }
}

impl<T: Drop> From<AllocFailed<T>> for NoMemory {
    fn from(_: AllocFailed<T>) -> Self {
        NoMemory
    }
}

/// A source or a sink failed.
#[derive(Clone, Copy, Debug, PartialEq, Eq, Error)]
#[error("a source or a sink failed")]
pub struct Failed;
