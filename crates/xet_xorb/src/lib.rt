//! Xorbs, the content-addressed objects in which chunks are stored: construction, validation, reads of ranges
//! of chunks, and footers. Re-exports the calls of `xet_xorb_chunk` and the types of `xet_xorb_footer`.
#![tactic(auto)]

mod building;
mod footer_decoder;
mod footers;
pub mod laws;
mod object;
mod places;
mod ranges;
mod raw;
mod reconstruction;
mod validation;

pub use building::SerializedXorbObject;
pub use footer_decoder::FooterDecoder;
pub use footers::new_footer;
pub use object::XorbObject;
pub use raw::{RawXorbData, raw_xorb_to_vec, xorb_record};
pub use reconstruction::reconstruct_xorb_with_footer;
pub use xet_xorb_chunk::{
    Chunk, ChunkDecoder, CompressionScheme, MAX_CHUNK_SIZE, MAX_XORB_BYTES, MAX_XORB_CHUNKS,
    MAXIMUM_CHUNK_MULTIPLIER, MINIMUM_CHUNK_DIVISOR, TARGET_CHUNK_SIZE, XORB_BLOCK_SIZE,
    XORB_CHUNK_HEADER_LENGTH, XORB_CUT_THRESHOLD_BYTES, XORB_CUT_THRESHOLD_CHUNKS, XorbChunkHeader,
    append_chunk_segment, chunk_leaves, chunk_len, deserialize_chunk, deserialize_chunk_header,
    deserialize_chunk_to_writer, deserialize_chunks, deserialize_chunks_to_writer,
    parse_chunk_header, serialize_chunk, write_chunk_header,
};
pub use xet_xorb_footer::{XorbObjectIdent, XorbObjectInfoV0, XorbObjectInfoV1};
