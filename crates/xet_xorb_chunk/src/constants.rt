//! Default sizes of chunks and xorbs.

/// Target (average) chunk size, in bytes.
pub const TARGET_CHUNK_SIZE: usize = 65_536;

/// The target divided by this is the minimum chunk size.
pub const MINIMUM_CHUNK_DIVISOR: usize = 8;

/// The target times this is the maximum chunk size.
pub const MAXIMUM_CHUNK_MULTIPLIER: usize = 2;

/// Maximum chunk size, in bytes.
pub const MAX_CHUNK_SIZE: usize = TARGET_CHUNK_SIZE * MAXIMUM_CHUNK_MULTIPLIER;

/// Maximum xorb size, in bytes.
pub const MAX_XORB_BYTES: usize = 67_108_864;

/// Number of bytes of a xorb that are sent at once.
pub const XORB_BLOCK_SIZE: usize = 67_108_864;

/// Number of bytes at which a xorb is closed.
pub const XORB_CUT_THRESHOLD_BYTES: usize = MAX_XORB_BYTES;

/// Maximum number of chunks in a xorb.
pub const MAX_XORB_CHUNKS: usize = 8_192;

/// Number of chunks at which a xorb is closed.
pub const XORB_CUT_THRESHOLD_CHUNKS: usize = MAX_XORB_CHUNKS;
