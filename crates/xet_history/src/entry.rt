//! The entries of a history.

use xet_base::Items;
use xet_hash::MerkleHash;
use xet_shard_format::{FileDataSequenceEntry, MDBFileInfo};

/// Hashes, in order.
pub type HashList = Items<MerkleHash>;

/// The hash and the length in bytes of each of some chunks, in order.
pub type ChunkList = Items<(MerkleHash, u64)>;

/// A run of chunks of a xorb.
#[derive(Clone, Copy, PartialEq, Eq, Debug)]
pub struct Run {
    /// The xorb hash.
    pub xorb: MerkleHash,
    /// The index of the first chunk in the xorb, from 0.
    pub from: u32,
    /// The index after the last chunk.
    pub to: u32,
    /// The uncompressed length of the run, in bytes.
    pub bytes: u32,
}

impl Run {
    ghost use Rattle.std.specs.Prelude.{◌≡◌};
    ghost use Rattle.xet_history.specs.History.{run_of};

    /// The run that a segment names.
    pub fn of_segment(segment: &FileDataSequenceEntry) -> Run
        ensures { result ≡ run_of segment.now }
    {
        Run {
            xorb: segment.xorb_hash,
            from: segment.chunk_index_start,
            to: segment.chunk_index_end,
            bytes: segment.unpacked_segment_bytes,
        }
    }
}

/// The kinds of steps of a store.
#[derive(Clone, Copy, PartialEq, Eq, Debug)]
pub enum StepKind {
    Query,
    Register,
    Complete,
    Flush,
}

/// A step of a store, with its reply. A pass is a caller: 0 is one that has the store alone.
#[derive(Debug, Drop)]
pub enum Entry {
    /// A query for a run. It states the hashes of the run that was found and the next hash of the query, if there is one;
    /// if nothing was found, the first hash alone.
    Query {
        pass: u32,
        hashes: HashList,
        reply: Option<Run>,
    },
    /// A xorb was registered: its chunks, those that did not fit into it, and whether its hash was new.
    Register {
        pass: u32,
        chunks: ChunkList,
        next: ChunkList,
        added: bool,
    },
    /// A file was recorded: its record, and whether its hash was new.
    Complete {
        pass: u32,
        file: MDBFileInfo,
        added: bool,
    },
    /// What was pending was written as the shard of this hash.
    Flush {
        pass: u32,
        shard: MerkleHash,
    },
    /// The disk failed in a call of this kind.
    Fault {
        pass: u32,
        kind: StepKind,
    },
}

impl Entry {
    ghost use Rattle.std.specs.Prelude.{◌≡◌};
    ghost use Rattle.xet_history.specs.History.{pass_of};

    /// The number of the pass that made the step.
    pub fn pass(&self) -> u32
        ensures { result ≡ pass_of self.now }
    {
        match self {
            Entry::Query { pass, .. }
            | Entry::Register { pass, .. }
            | Entry::Complete { pass, .. }
            | Entry::Flush { pass, .. }
            | Entry::Fault { pass, .. } => *pass,
        }
    }
}
