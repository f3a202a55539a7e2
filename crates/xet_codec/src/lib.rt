//! Reading and writing bytes with `StoreError`: adapters to sources, sinks, readers and disks, blocks of a
//! reader, a buffer before a sink, and numbers at an offset. The definitions say how bytes are parsed.
#![tactic(auto)]

mod block;
mod buffer;
mod disk;
mod file_reader;
mod numbers;
mod readers;
mod streams;

pub use block::Block;
pub use buffer::Buffer;
pub use disk::store_error;
pub use file_reader::FileReader;
pub use numbers::{half_word, hash_at, word};
pub use readers::{read_exact, reader_length};
pub use streams::{MAX, copy_all, new_block, read_prefix, read_some, write_piece};
