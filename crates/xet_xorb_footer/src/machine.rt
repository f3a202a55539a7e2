//! State machine that reads a footer field by field.

ghost use Rattle.std.specs.Prelude.{◌≡◌, ◌≤◌, ◌+◌, ◌-◌, ◌*◌, ◌++◌, OnOk, length, min, vec_len};
ghost use Rattle.xet_xorb_footer.specs.internal.Items.{numbers_in};

use crate::info::{
    BOUNDARIES_MAGIC, FOOTER_MAGIC, HASHES_MAGIC, XorbObjectInfoV0, XorbObjectInfoV1,
};
use crate::lists::{hash_of, number_of, push_hashes, push_numbers};
use std::alloc::{AllocError, Global};
use xet_base::Items;
use xet_hash::{MerkleHash, Reason, StoreError};

/// Maximum number of list items in one field.
const BLOCK: usize = 64;

/// Maximum number of chunks of a footer. A footer of version 1 then has fewer than 2^32 bytes.
pub(crate) const MAX_CHUNKS: u32 = 107374180;

/// A field of a footer. A list is read as several fields.
#[derive(Clone, Copy, PartialEq, Eq, Debug)]
pub(crate) enum Field {
    /// Magic of the footer.
    Ident,
    Version,
    /// Xorb hash.
    Hash,
    /// Magic of the hash section.
    HashesIdent,
    HashesVersion,
    /// Number of chunks.
    Count,
    /// Up to 64 chunk hashes.
    Hashes,
    /// Magic of the boundary section.
    BoundariesIdent,
    BoundariesVersion,
    /// Number of chunks in the boundary section.
    CountAgain,
    /// Up to 64 boundary offsets.
    Ends,
    /// Up to 64 uncompressed boundary offsets.
    PlainEnds,
    /// Number of chunks after the sections.
    CountLast,
    /// Offset of the hash section, from the end of the footer.
    HashesOffset,
    /// Offset of the boundary section, from the end of the footer.
    BoundaryOffset,
    Spare,
    /// The footer is complete.
    Done,
}

/// Progress of reading a footer: the fields read so far, and the next one.
#[derive(Drop)]
pub(crate) struct FooterReader {
    next: Field,
    /// Whether version 1 is accepted.
    either: bool,
    /// Whether the footer is of version 1.
    is_v1: bool,
    /// Xorb hash.
    hash: MerkleHash,
    /// Number of chunks.
    count: u32,
    /// Chunk hashes.
    hashes: Vec<MerkleHash>,
    /// Boundary offsets.
    ends: Vec<u32>,
    /// Uncompressed boundary offsets.
    plain: Vec<u32>,
    spare: [u8; 16],
    /// Number of bytes known to be available, of the footer and after it.
    available: u64,
    ghost few: { count ≤ 107374180 },
    ghost few_hashes: { vec_len hashes ≤ 107374180 },
    ghost few_ends: { vec_len ends ≤ 107374180 },
    ghost few_plain: { vec_len plain ≤ 107374180 },
}

impl FooterReader {
    ghost use Rattle.std.specs.Prelude.{◌≡◌, ◌≤◌, ◌⊎◌, ℕ, ◌+◌, ◌-◌, ◌*◌, List, ◌++◌, Err, IfErr, IsErrOf, OnOk, length, min, nat_lt, if◌then◌else◌};
    ghost use Rattle.xet_hash.specs.declared.error.StoreError.TheVariants.{OutOfMemory, UnexpectedEof};
    ghost use Rattle.xet_xorb_footer.specs.internal.Machine.{IsIncomplete, advance, as_value, behind_ends, behind_hashes, ends_or, expects, expects_number, hashes_or, more_ends, more_hashes, more_plain, next_count, next_hash, next_spare, next_version, plain_v1, started, step};
    ghost use Rattle.xet_xorb_footer.specs.Machine.{block_of, info_of_parts, info_v0};
    ghost use Rattle.xet_xorb_footer.specs.Reader.{bytes_left, bytes_wanted, footer_parts_of, rest_of};
    ghost use Rattle.xet_xorb_footer.specs.Reading.{footer_at, footer_v0, rest_v0};
    ghost use Rattle.xet_codec.specs.Parsing.{Gives};
    ghost use Rattle.xet_xorb_footer.specs.Errors.{IsBytesError};
    ghost use Rattle.xet_xorb_footer.specs.FooterEncoding.{max_chunks};

    /// Reads a footer of either version. `available` is the number of bytes known to be available. If the
    /// lists fit into them, they are reserved once, as soon as the number of chunks is read. Otherwise they
    /// grow.
    pub(crate) fn of_either(alloc: Global, available: u64) -> FooterReader
        ensures rest { (bytes : List ℕ) → as_value info_of_parts (rest_of result bytes) ≡ footer_at bytes }
        ensures settled { IsIncomplete result.next (footer_parts_of result) }
        ensures left { bytes_left result ≤ 92 + 40 * max_chunks }
    {
        FooterReader::started(alloc, true, Field::Ident, available)
    }

    /// Reads a footer of version 0.
    pub(crate) fn of_v0(alloc: Global) -> FooterReader
        ensures rest { (bytes : List ℕ) → as_value info_v0 (rest_of result bytes) ≡ footer_v0 bytes }
        ensures settled { IsIncomplete result.next (footer_parts_of result) }
        ensures left { bytes_left result ≤ 92 + 40 * max_chunks }
    {
        FooterReader::started(alloc, false, Field::Ident, 0)
    }

    /// Reads what follows the magic and the version in a footer of version 0.
    pub(crate) fn of_rest_v0(alloc: Global) -> FooterReader
        ensures rest { (bytes : List ℕ) → as_value info_v0 (rest_of result bytes) ≡ rest_v0 bytes }
        ensures settled { IsIncomplete result.next (footer_parts_of result) }
        ensures left { bytes_left result ≤ 92 + 40 * max_chunks }
    {
        FooterReader::started(alloc, false, Field::Hash, 0)
    }

    /// Nothing was read, and `next` is the first field.
    fn started(alloc: Global, either: bool, next: Field, available: u64) -> FooterReader
        ensures next { result.next ≡ next }
        ensures parts { footer_parts_of result ≡ started either }
    {
        FooterReader {
            next,
            either,
            is_v1: false,
            hash: MerkleHash::default(),
            count: 0,
            hashes: Vec::new(alloc),
            ends: Vec::new(alloc),
            plain: Vec::new(alloc),
            spare: [0; 16],
            available,
        }
    }

    /// The footer, once it is complete.
    pub(crate) fn into_v0(self) -> XorbObjectInfoV0
        ensures { result ≡ info_v0 (footer_parts_of self) }
    {
        let spare = self.spare;
        XorbObjectInfoV0 {
            ident: FOOTER_MAGIC,
            version: 0,
            xorb_hash: self.hash,
            num_chunks: self.count,
            chunk_boundary_offsets: Items::from_vec(self.ends),
            chunk_hashes: Items::from_vec(self.hashes),
            spare,
        }
    }

    /// The footer of either version, once it is complete, as one of version 1.
    pub(crate) fn into_v1(self) -> XorbObjectInfoV1
        ensures { result ≡ info_of_parts (footer_parts_of self) }
    {
        if !self.is_v1 {
            return XorbObjectInfoV1::from_v0(self.into_v0());
        }
        let spare = self.spare;
        XorbObjectInfoV1 {
            ident: FOOTER_MAGIC,
            version: 1,
            xorb_hash: self.hash,
            ident_hash_section: HASHES_MAGIC,
            hashes_version: 0,
            chunk_hashes: Items::from_vec(self.hashes),
            ident_boundary_section: BOUNDARIES_MAGIC,
            boundaries_version: 1,
            chunk_boundary_offsets: Items::from_vec(self.ends),
            unpacked_chunk_offsets: Items::from_vec(self.plain),
            num_chunks: self.count,
            hashes_section_offset_from_end: 52 + 40 * self.count,
            boundary_section_offset_from_end: 40 + 8 * self.count,
            spare,
        }
    }

    /// Number of bytes of the next field, or 0 if the footer is complete.
    pub(crate) fn wanted(&self) -> usize
        ensures { result ≡ bytes_wanted self.now }
    {
        match self.next {
            Field::Ident | Field::HashesIdent | Field::BoundariesIdent => 7,
            Field::Version | Field::HashesVersion | Field::BoundariesVersion => 1,
            Field::Hash => 32,
            Field::Hashes => 32 * self.block(self.hashes.len()),
            Field::Ends => 4 * self.block(self.ends.len()),
            Field::PlainEnds => 4 * self.block(self.plain.len()),
            Field::Count | Field::CountAgain | Field::CountLast => 4,
            Field::HashesOffset | Field::BoundaryOffset => 4,
            Field::Spare => 16,
            Field::Done => 0,
        }
    }

    /// Number of items in the next field of a list that has `len` items so far.
    fn block(&self, len: usize) -> usize
        ensures { result ≡ min 64 (self.now.count - len) }
    {
        BLOCK.min((self.count as usize).saturating_sub(len))
    }
    /// Consumes the next field, which must be complete.
    pub(crate) fn take(&mut self, field: &[u8]) -> Result<(), StoreError>
        requires { length field.now ≡ bytes_wanted self.old }
        ensures taken { OnOk result ((more : List ℕ) → rest_of self.old (field.now ++ more) ≡ rest_of self.new more) }
        ensures refused { IfErr result (λ e. (e ≡ OutOfMemory) ⊎ ((more : List ℕ) → rest_of self.old (field.now ++ more) ≡ Err e)) }
        ensures kinds { IfErr result IsBytesError }
        ensures whole { IsErrOf result UnexpectedEof → ⊥ }
        ensures settled { OnOk result (IsIncomplete self.new.next (footer_parts_of self.new)) }
        ensures left { OnOk result (length field.now + bytes_left self.new ≤ bytes_left self.old) }
    {
        self.step(field)
    }

    /// `take`, with the contract that it does what the definition `step` says.
    #[tactic(auto, unfolding(crate::specs::internal::Machine::step))]
    fn step(&mut self, field: &[u8]) -> Result<(), StoreError>
        requires { length field.now ≡ bytes_wanted self.old }
        ensures { Gives (λ _. (self.new.next, footer_parts_of self.new)) result (step self.old.next (footer_parts_of self.old) field.now) }
    {
        let count = self.count as u64;
        match self.next {
            Field::Ident => self.expect(field, &FOOTER_MAGIC, Reason::Ident, Field::Version),
            Field::Version => self.take_version(field),
            Field::Hash => self.take_hash(field),
            Field::HashesIdent => {
                self.expect(
                    field,
                    &HASHES_MAGIC,
                    Reason::HashesIdent,
                    Field::HashesVersion,
                )
            }
            Field::HashesVersion => {
                self.expect(field, &[0], Reason::HashesVersion, Field::Count)
            }
            Field::Count => self.take_count(field),
            Field::Hashes => self.take_hashes(field),
            Field::BoundariesIdent => self.expect(
                field,
                &BOUNDARIES_MAGIC,
                Reason::BoundariesIdent,
                Field::BoundariesVersion,
            ),
            Field::BoundariesVersion => {
                self.expect(field, &[1], Reason::BoundariesVersion, Field::CountAgain)
            }
            Field::CountAgain => {
                self.expect_number(field, count, Reason::CountMismatch, self.behind_ends())
            }
            Field::Ends => self.take_ends(field),
            Field::PlainEnds => self.take_plain(field),
            Field::CountLast => {
                self.expect_number(field, count, Reason::CountMismatch, Field::HashesOffset)
            }
            Field::HashesOffset => self.expect_number(
                field,
                52 + 40 * count,
                Reason::HashesOffset,
                Field::BoundaryOffset,
            ),
            Field::BoundaryOffset => {
                self.expect_number(field, 40 + 8 * count, Reason::BoundaryOffset, Field::Spare)
            }
            Field::Spare => self.take_spare(field),
            Field::Done => Ok(()),
        }
    }

    /// Checks that the field is `wanted`.
    fn expect(
        &mut self,
        field: &[u8],
        wanted: &[u8],
        reason: Reason,
        next: Field,
    ) -> Result<(), StoreError>
        ensures { Gives (λ _. (self.new.next, footer_parts_of self.new)) result (expects field.now wanted.now reason next (footer_parts_of self.old)) }
    {
        if field != wanted {
            return Err(StoreError::MalformedData(reason));
        }
        self.advance(next)
    }

    /// Checks that the field is the number `wanted`.
    fn expect_number(
        &mut self,
        field: &[u8],
        wanted: u64,
        reason: Reason,
        next: Field,
    ) -> Result<(), StoreError>
        requires { length field.now ≡ 4 }
        ensures { Gives (λ _. (self.new.next, footer_parts_of self.new)) result (expects_number field.now wanted reason next (footer_parts_of self.old)) }
    {
        if number_of(field) as u64 != wanted {
            return Err(StoreError::MalformedData(reason));
        }
        self.advance(next)
    }

    fn take_version(&mut self, field: &[u8]) -> Result<(), StoreError>
        ensures { Gives (λ _. (self.new.next, footer_parts_of self.new)) result (next_version (footer_parts_of self.old) field.now) }
    {
        if self.either && field == [1].as_slice() {
            self.is_v1 = true;
            self.next = Field::Hash;
            return Ok(());
        }
        self.is_v1 = false;
        self.expect(field, &[0], Reason::Version, Field::Hash)
    }

    fn take_hash(&mut self, field: &[u8]) -> Result<(), StoreError>
        requires { length field.now ≡ 32 }
        ensures { Gives (λ _. (self.new.next, footer_parts_of self.new)) result (next_hash (footer_parts_of self.old) field.now) }
    {
        self.hash = hash_of(field);
        self.next = if self.is_v1 {
            Field::HashesIdent
        } else {
            Field::Count
        };
        Ok(())
    }

    /// Checks the number of chunks, and reserves the lists.
    fn take_count(&mut self, field: &[u8]) -> Result<(), StoreError>
        requires { length field.now ≡ 4 }
        ensures { Gives (λ _. (self.new.next, footer_parts_of self.new)) result (next_count (footer_parts_of self.old) field.now) }
    {
        let count = number_of(field);
        if count > MAX_CHUNKS {
            return Err(StoreError::MalformedData(Reason::ChunkCount));
        }
        self.count = count;
        self.reserve()?;
        self.next = if self.is_v1 {
            self.hashes_or(Field::BoundariesIdent)
        } else {
            self.ends_or(self.hashes_or(Field::Spare))
        };
        Ok(())
    }

    /// Reserves the lists if they fit into the available bytes, so that a wrong count reserves no more memory
    /// than there are bytes. A chunk takes 40 bytes in version 1, and 36 in version 0.
    fn reserve(&mut self) -> Result<(), AllocError>
        ensures next { self.new.next ≡ self.old.next }
        ensures parts { footer_parts_of self.new ≡ footer_parts_of self.old }
    {
        let count = self.count as usize;
        let each = if self.is_v1 { 40 } else { 36 };
        if self.available < each * count as u64 {
            return Ok(());
        }
        self.hashes.reserve(count)?;
        self.ends.reserve(count)?;
        if self.is_v1 {
            self.plain.reserve(count)?;
        }
        Ok(())
    }

    fn take_hashes(&mut self, field: &[u8]) -> Result<(), StoreError>
        requires { length field.now ≡ 32 * block_of (footer_parts_of self.old) self.old.hashes.items }
        ensures { Gives (λ _. (self.new.next, footer_parts_of self.new)) result (advance behind_hashes (more_hashes (footer_parts_of self.old) field.now)) }
    {
        let count = self.block(self.hashes.len());
        push_hashes(&mut self.hashes, field, count)?;
        self.next = if self.is_v1 {
            self.hashes_or(Field::BoundariesIdent)
        } else {
            self.hashes_or(Field::Spare)
        };
        Ok(())
    }

    fn take_ends(&mut self, field: &[u8]) -> Result<(), StoreError>
        requires { length field.now ≡ 4 * block_of (footer_parts_of self.old) self.old.ends.items }
        ensures { Gives (λ _. (self.new.next, footer_parts_of self.new)) result (advance behind_ends (more_ends (footer_parts_of self.old) field.now)) }
    {
        push_block(&mut self.ends, field, self.count)?;
        self.advance(self.behind_ends())
    }

    fn take_plain(&mut self, field: &[u8]) -> Result<(), StoreError>
        requires { length field.now ≡ 4 * block_of (footer_parts_of self.old) self.old.plain.items }
        ensures { Gives (λ _. (self.new.next, footer_parts_of self.new)) result (advance plain_v1 (more_plain (footer_parts_of self.old) field.now)) }
    {
        push_block(&mut self.plain, field, self.count)?;
        self.advance(self.plain_v1())
    }

    fn take_spare(&mut self, field: &[u8]) -> Result<(), StoreError>
        requires { length field.now ≡ 16 }
        ensures { Gives (λ _. (self.new.next, footer_parts_of self.new)) result (next_spare (footer_parts_of self.old) field.now) }
    {
        self.spare.copy_from_slice(field);
        self.advance(Field::Done)
    }

    /// Sets the next field.
    fn advance(&mut self, next: Field) -> Result<(), StoreError>
        ensures { Gives (λ _. (self.new.next, footer_parts_of self.new)) result (advance (λ _. next) (footer_parts_of self.old)) }
    {
        self.next = next;
        Ok(())
    }

    /// The field `here` while a list with `len` items is incomplete, then the field `behind`.
    fn unless_full(&self, len: usize, here: Field, behind: Field) -> Field
        ensures { result ≡ if nat_lt len self.now.count then here else behind }
    {
        if len < self.count as usize {
            here
        } else {
            behind
        }
    }

    /// The next field of version 1 when the uncompressed boundary offsets are due.
    fn plain_v1(&self) -> Field
        ensures { result ≡ plain_v1 (footer_parts_of self.now) }
    {
        self.unless_full(self.plain.len(), Field::PlainEnds, Field::CountLast)
    }

    /// The next field when the boundary offsets are due, and `behind` after them.
    fn ends_or(&self, behind: Field) -> Field
        ensures { result ≡ ends_or (footer_parts_of self.now) behind }
    {
        self.unless_full(self.ends.len(), Field::Ends, behind)
    }

    /// The next field when the chunk hashes are due, and `behind` after them.
    fn hashes_or(&self, behind: Field) -> Field
        ensures { result ≡ hashes_or (footer_parts_of self.now) behind }
    {
        self.unless_full(self.hashes.len(), Field::Hashes, behind)
    }

    /// The next field of either version when the boundary offsets are due.
    fn behind_ends(&self) -> Field
        ensures { result ≡ behind_ends (footer_parts_of self.now) }
    {
        if self.is_v1 {
            self.ends_or(self.plain_v1())
        } else {
            self.ends_or(self.hashes_or(Field::Spare))
        }
    }
}

/// Appends the numbers of the next field of a list that is to have `total` items.
fn push_block(list: &mut Vec<u32>, field: &[u8], total: u32) -> Result<(), AllocError>
    requires { 4 * min 64 (total - vec_len list.old) ≤ length field.now }
    ensures items { OnOk result (list.new.items ≡ list.old.items ++ numbers_in (min 64 (total - length list.old.items)) field.now) }
    ensures bound { vec_len list.new ≤ vec_len list.old + min 64 (total - vec_len list.old) }
{
    let count = BLOCK.min((total as usize).saturating_sub(list.len()));
    push_numbers(list, field, count)
}
