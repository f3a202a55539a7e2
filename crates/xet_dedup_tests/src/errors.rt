//! `TestError`.

use std::alloc::{AllocError, AllocFailed};
use xet_hash::StoreError;

/// Why a call of a store in memory failed, or a test.
#[derive(Clone, Copy, PartialEq, Eq, Debug)]
pub enum TestError {
    /// The call with this number, from 0, was to fail.
    Refused(u64),
    /// Out of memory.
    OutOfMemory,
    /// A xorb that a store cannot know: its hash is the sentinel, it has 2^32 bytes or chunks or more, or its hash is known
    /// with chunks of other lengths.
    OtherXorb,
    /// What no test expects: an error of another call, or chunks that no chunking by the limits gives.
    Unexpected,
}

impl From<AllocError> for TestError {
    fn from(_: AllocError) -> TestError {
        TestError::OutOfMemory
    }
}

impl<T: Drop> From<AllocFailed<T>> for TestError {
    fn from(_: AllocFailed<T>) -> TestError {
        TestError::OutOfMemory
    }
}

impl From<StoreError> for TestError {
    fn from(error: StoreError) -> TestError {
        match error {
            StoreError::OutOfMemory => TestError::OutOfMemory,
            _ => TestError::Unexpected,
        }
    }
}
