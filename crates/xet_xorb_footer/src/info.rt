//! Footers of xorbs as values, in both versions.

ghost use Rattle.std.specs.Prelude.{◌+◌, ◌*◌, ◌≡◌, ◌≤◌, ◌≢◌, ◌↔◌, [], IfOk, IsOkUnless, IsTrue, length};
ghost use Rattle.xet_xorb_footer.specs.FooterEncoding.{HasShortLists, empty_v0, empty_v1, filled, length_of, max_chunks, of_v0, of_v0_with};

use serde::Serialize;
use std::alloc::Global;
use xet_base::Items;
use xet_hash::{MerkleHash, StoreError};

/// The magic of a footer or of one of its sections.
pub type XorbObjectIdent = [u8; 7];

/// Size of the spare bytes at the end of a footer. They have no meaning yet.
const SPARE: usize = 16;

/// Magic of a footer.
pub(crate) const FOOTER_MAGIC: XorbObjectIdent = *b"XETBLOB";

/// Magic of the hash section.
pub(crate) const HASHES_MAGIC: XorbObjectIdent = *b"XBLBHSH";

/// Magic of the boundary section.
pub(crate) const BOUNDARIES_MAGIC: XorbObjectIdent = *b"XBLBBND";

/// A footer of version 0. Its JSON has the fields in this order, the xorb hash as `cashash`, and no spare
/// bytes.
#[derive(PartialEq, Eq, Debug, Drop, Serialize)]
pub struct XorbObjectInfoV0 {
    /// Magic, `XETBLOB`.
    pub ident: XorbObjectIdent,
    /// Version, 0.
    pub version: u8,
    /// Xorb hash.
    #[serde(rename = "cashash")]
    pub xorb_hash: MerkleHash,
    /// Number of chunks.
    pub num_chunks: u32,
    /// Boundary offsets: the end of each chunk among the stored chunks, headers included.
    pub chunk_boundary_offsets: Items<u32>,
    /// Chunk hashes.
    pub chunk_hashes: Items<MerkleHash>,
    /// Spare bytes, preserved as read.
    #[serde(skip)]
    pub(crate) spare: [u8; SPARE],
}

/// A footer of version 1. Its JSON has the fields in this order, the xorb hash as `cashash`, and no spare
/// bytes.
#[derive(PartialEq, Eq, Debug, Drop, Serialize)]
pub struct XorbObjectInfoV1 {
    /// Magic, `XETBLOB`.
    pub ident: XorbObjectIdent,
    /// Version, 1.
    pub version: u8,
    /// Xorb hash.
    #[serde(rename = "cashash")]
    pub xorb_hash: MerkleHash,
    /// Magic of the hash section, `XBLBHSH`.
    pub ident_hash_section: XorbObjectIdent,
    /// Version of the hash section, 0.
    pub hashes_version: u8,
    /// Chunk hashes.
    pub chunk_hashes: Items<MerkleHash>,
    /// Magic of the boundary section, `XBLBBND`.
    pub ident_boundary_section: XorbObjectIdent,
    /// Version of the boundary section: 1, or 0 if the footer was converted from version 0 without
    /// uncompressed boundary offsets.
    pub boundaries_version: u8,
    /// Boundary offsets: the end of each chunk among the stored chunks, headers included.
    pub chunk_boundary_offsets: Items<u32>,
    /// Uncompressed boundary offsets: the end of each chunk among the uncompressed bytes.
    pub unpacked_chunk_offsets: Items<u32>,
    /// Number of chunks.
    pub num_chunks: u32,
    /// Start of the hash section, in bytes before the end of the footer.
    pub hashes_section_offset_from_end: u32,
    /// Start of the boundary section, in bytes before the end of the footer.
    pub boundary_section_offset_from_end: u32,
    /// Spare bytes, preserved as read.
    #[serde(skip)]
    pub(crate) spare: [u8; SPARE],
}

impl XorbObjectInfoV0 {
    /// The footer of no chunks, with zeros as hash and spare bytes. Does not allocate.
    pub fn default(alloc: Global) -> XorbObjectInfoV0
        ensures { result ≡ empty_v0 }
    {
        XorbObjectInfoV0 {
            ident: FOOTER_MAGIC,
            version: 0,
            xorb_hash: MerkleHash::default(),
            num_chunks: 0,
            chunk_boundary_offsets: Items::new(alloc),
            chunk_hashes: Items::new(alloc),
            spare: [0; SPARE],
        }
    }

    /// A footer with these lists and as many chunks as hashes, at most 107,374,180. `stored_ends` are the
    /// boundary offsets. There should be one for each chunk, which is not checked. Does not allocate.
    pub fn from_lists(
        xorb_hash: MerkleHash,
        stored_ends: Vec<u32>,
        chunk_hashes: Vec<MerkleHash>,
        spare: [u8; 16],
    ) -> XorbObjectInfoV0
        requires { length chunk_hashes.items ≤ max_chunks }
        ensures { result ≡ record empty_v0 { xorb_hash = xorb_hash; num_chunks = length chunk_hashes.items; chunk_boundary_offsets = stored_ends.items; chunk_hashes = chunk_hashes.items; spare = spare } }
    {
        XorbObjectInfoV0 {
            ident: FOOTER_MAGIC,
            version: 0,
            xorb_hash,
            num_chunks: chunk_hashes.len() as u32,
            chunk_boundary_offsets: Items::from_vec(stored_ends),
            chunk_hashes: Items::from_vec(chunk_hashes),
            spare,
        }
    }

    /// A copy. Its only error is `OutOfMemory`.
    pub fn clone(&self, alloc: Global) -> Result<XorbObjectInfoV0, StoreError>
        ensures same { IfOk result (λ copy. copy ≡ self.now) }
        ensures memory { IsOkUnless result StoreError.OutOfMemory }
    {
        Ok(XorbObjectInfoV0 {
            ident: self.ident,
            version: self.version,
            xorb_hash: self.xorb_hash,
            num_chunks: self.num_chunks,
            chunk_boundary_offsets: copy(alloc, &self.chunk_boundary_offsets)?,
            chunk_hashes: copy(alloc, &self.chunk_hashes)?,
            spare: self.spare,
        })
    }
}

impl XorbObjectInfoV1 {
    /// The footer of no chunks, with zeros as hash and spare bytes. Does not allocate.
    pub fn default(alloc: Global) -> XorbObjectInfoV1
        ensures { result ≡ empty_v1 }
    {
        XorbObjectInfoV1 {
            ident: FOOTER_MAGIC,
            version: 1,
            xorb_hash: MerkleHash::default(),
            ident_hash_section: HASHES_MAGIC,
            hashes_version: 0,
            chunk_hashes: Items::new(alloc),
            ident_boundary_section: BOUNDARIES_MAGIC,
            boundaries_version: 1,
            chunk_boundary_offsets: Items::new(alloc),
            unpacked_chunk_offsets: Items::new(alloc),
            num_chunks: 0,
            hashes_section_offset_from_end: 52,
            boundary_section_offset_from_end: 40,
            spare: [0; SPARE],
        }
    }

    /// A footer with these lists and as many chunks as hashes, at most 107,374,180. `stored_ends` are the
    /// boundary offsets and `plain_ends` the uncompressed ones. There should be one of each for each chunk, which
    /// is not checked. Does not allocate.
    pub fn from_lists(
        xorb_hash: MerkleHash,
        chunk_hashes: Vec<MerkleHash>,
        stored_ends: Vec<u32>,
        plain_ends: Vec<u32>,
        spare: [u8; 16],
    ) -> XorbObjectInfoV1
        requires { length chunk_hashes.items ≤ max_chunks }
        ensures { result ≡ record empty_v1 { xorb_hash = xorb_hash; chunk_hashes = chunk_hashes.items; chunk_boundary_offsets = stored_ends.items; unpacked_chunk_offsets = plain_ends.items; num_chunks = length chunk_hashes.items; hashes_section_offset_from_end = 52 + 40 * length chunk_hashes.items; boundary_section_offset_from_end = 40 + 8 * length chunk_hashes.items; spare = spare } }
    {
        let count = chunk_hashes.len() as u32;
        XorbObjectInfoV1 {
            ident: FOOTER_MAGIC,
            version: 1,
            xorb_hash,
            ident_hash_section: HASHES_MAGIC,
            hashes_version: 0,
            chunk_hashes: Items::from_vec(chunk_hashes),
            ident_boundary_section: BOUNDARIES_MAGIC,
            boundaries_version: 1,
            chunk_boundary_offsets: Items::from_vec(stored_ends),
            unpacked_chunk_offsets: Items::from_vec(plain_ends),
            num_chunks: count,
            hashes_section_offset_from_end: 52 + 40 * count,
            boundary_section_offset_from_end: 40 + 8 * count,
            spare,
        }
    }

    /// A copy. Its only error is `OutOfMemory`.
    pub fn clone(&self, alloc: Global) -> Result<XorbObjectInfoV1, StoreError>
        ensures same { IfOk result (λ copy. copy ≡ self.now) }
        ensures memory { IsOkUnless result StoreError.OutOfMemory }
    {
        Ok(XorbObjectInfoV1 {
            chunk_hashes: copy(alloc, &self.chunk_hashes)?,
            chunk_boundary_offsets: copy(alloc, &self.chunk_boundary_offsets)?,
            unpacked_chunk_offsets: copy(alloc, &self.unpacked_chunk_offsets)?,
            ..*self
        })
    }

    /// Length of the encoding, in bytes, by the lengths of the lists.
    pub fn serialized_length(&self) -> usize
        requires { HasShortLists self.now }
        ensures { result ≡ length_of self.now }
    {
        92 + 32 * self.chunk_hashes.as_slice().len()
            + 4 * self.chunk_boundary_offsets.as_slice().len()
            + 4 * self.unpacked_chunk_offsets.as_slice().len()
    }

    /// Sets the offsets of both sections by the lengths of the lists.
    pub fn fill_in_boundary_offsets(&mut self)
        requires { HasShortLists self.old }
        ensures { self.new ≡ filled self.old }
    {
        let boundary = 40
            + 4 * self.chunk_boundary_offsets.as_slice().len() as u32
            + 4 * self.unpacked_chunk_offsets.as_slice().len() as u32;
        self.boundary_section_offset_from_end = boundary;
        self.hashes_section_offset_from_end = boundary
            + 12
            + 32 * self.chunk_hashes.as_slice().len() as u32;
    }

    /// Whether chunk hashes are listed.
    pub fn has_chunk_hashes(&self) -> bool
        ensures { IsTrue result ↔ (self.now.chunk_hashes ≢ []) }
    {
        !self.chunk_hashes.as_slice().is_empty()
    }

    /// Converts a footer of version 0 to version 1, without uncompressed boundary offsets. Does not allocate.
    pub fn from_v0(src: XorbObjectInfoV0) -> XorbObjectInfoV1
        requires hashes { length src.chunk_hashes ≤ max_chunks }
        requires stored { length src.chunk_boundary_offsets ≤ max_chunks }
        ensures { result ≡ of_v0 src }
    {
        let stored = src.chunk_boundary_offsets.into_vec();
        let alloc = *stored.allocator();
        let ends = stored.len() as u32;
        let hashes = src.chunk_hashes.as_slice().len() as u32;
        XorbObjectInfoV1 {
            ident: src.ident,
            version: 1,
            xorb_hash: src.xorb_hash,
            ident_hash_section: HASHES_MAGIC,
            hashes_version: 0,
            chunk_hashes: src.chunk_hashes,
            ident_boundary_section: BOUNDARIES_MAGIC,
            boundaries_version: 0,
            chunk_boundary_offsets: Items::from_vec(stored),
            unpacked_chunk_offsets: Items::new(alloc),
            num_chunks: src.num_chunks,
            hashes_section_offset_from_end: 52 + 4 * ends + 32 * hashes,
            boundary_section_offset_from_end: 40 + 4 * ends,
            spare: src.spare,
        }
    }
    /// Converts a footer of version 0 to version 1, with these uncompressed boundary offsets and zeros as
    /// spare bytes. Does not allocate.
    pub fn from_v0_with_unpacked_chunk_offsets(
        src: XorbObjectInfoV0,
        offsets: Vec<u32>,
    ) -> XorbObjectInfoV1
        requires hashes { length src.chunk_hashes ≤ max_chunks }
        requires stored { length src.chunk_boundary_offsets ≤ max_chunks }
        requires plain { length offsets.items ≤ max_chunks }
        ensures { result ≡ of_v0_with src offsets.items }
    {
        let mut info = XorbObjectInfoV1::from_v0(src);
        info.boundaries_version = 1;
        info.unpacked_chunk_offsets = Items::from_vec(offsets);
        info.spare = [0; SPARE];
        info.fill_in_boundary_offsets();
        info
    }
}

/// A copy of the items. Its only error is `OutOfMemory`.
fn copy<T: Copy>(alloc: Global, items: &Items<T>) -> Result<Items<T>, StoreError>
    ensures same { IfOk result (λ copy. copy ≡ items.now) }
    ensures memory { IsOkUnless result StoreError.OutOfMemory }
{
    Ok(Items::from_vec(Vec::from_slice(alloc, items.as_slice())?))
}
