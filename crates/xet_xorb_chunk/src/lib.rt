//! Stored chunks: headers, bodies, streams of chunks, and compression schemes.
#![tactic(auto)]

mod chunk;
mod chunk_prefix;
mod chunk_stream;
mod constants;
mod decoder;
mod header;
pub mod laws;
mod scheme;
mod segment;
mod stream;

pub use chunk::{Chunk, chunk_leaves};
pub use chunk_prefix::chunk_len;
pub use chunk_stream::{
    deserialize_chunk, deserialize_chunk_header, deserialize_chunk_to_writer, serialize_chunk,
};
pub use constants::{
    MAX_CHUNK_SIZE, MAX_XORB_BYTES, MAX_XORB_CHUNKS, MAXIMUM_CHUNK_MULTIPLIER,
    MINIMUM_CHUNK_DIVISOR, TARGET_CHUNK_SIZE, XORB_BLOCK_SIZE, XORB_CUT_THRESHOLD_BYTES,
    XORB_CUT_THRESHOLD_CHUNKS,
};
pub use decoder::ChunkDecoder;
pub use header::{
    XORB_CHUNK_HEADER_LENGTH, XorbChunkHeader, parse_chunk_header, write_chunk_header,
};
pub use scheme::CompressionScheme;
pub use segment::append_chunk_segment;
pub use stream::{deserialize_chunks, deserialize_chunks_to_writer};
