//! The header and the footer of a shard.

ghost use Rattle.std.specs.Prelude.{◌≡◌, ◌⊎◌, ◌≤◌, ◌+◌, ◌-◌, ◌*◌, ◌==◌, ℕ, IfErr, IfOk, List, OnOk, drop, length, min, take};
ghost use Rattle.xet_shard_format.specs.Ends.{footer_of_last, header_of_first};
ghost use Rattle.xet_codec.specs.Parsing.{Gives};
ghost use Rattle.xet_shard_format.specs.Reading.{IsPlaced, ends_of, shard_footer_at, footer_in, shard_header_at, places_at};

use xet_codec::{hash_at, word};
use xet_hash::{HMACKey, Reason, StoreError};

/// The header: the first 48 bytes of a shard.
#[derive(Clone, Copy, PartialEq, Eq, Debug, Default)]
pub struct MDBShardFileHeader {
    /// The magic `XETSHARD` and 24 zeros.
    pub tag: [u8; 32],
    /// The version: 2.
    pub version: u64,
    /// The length of the footer in bytes: 200.
    pub footer_size: u64,
}

/// The footer: the last 200 bytes of a shard. Offsets are in bytes from the start of the shard.
#[derive(Clone, Copy, PartialEq, Eq, Debug, Default)]
pub struct MDBShardFileFooter {
    /// The version: 1.
    pub version: u64,
    /// The offset of the file section.
    pub file_info_offset: u64,
    /// The offset of the xorb section.
    pub xorb_info_offset: u64,
    /// The offset of the file lookup table.
    pub file_lookup_offset: u64,
    /// The number of its items.
    pub file_lookup_num_entry: u64,
    /// The offset of the xorb lookup table.
    pub xorb_lookup_offset: u64,
    /// The number of its items.
    pub xorb_lookup_num_entry: u64,
    /// The offset of the chunk lookup table.
    pub chunk_lookup_offset: u64,
    /// The number of its items.
    pub chunk_lookup_num_entry: u64,
    /// The key of the chunk hashes; zero if the shard is not keyed.
    pub chunk_hash_hmac_key: HMACKey,
    /// The creation time, in seconds since the Unix epoch.
    pub shard_creation_timestamp: u64,
    /// The expiry: the last second at which the shard is valid, since the Unix epoch; 2^64 - 1 for none.
    pub shard_key_expiry: u64,
    /// 0 in a well-formed shard.
    pub stored_bytes_on_disk: u64,
    /// The uncompressed bytes of all segments of all files.
    pub materialized_bytes: u64,
    /// The uncompressed bytes of all chunks of all xorbs.
    pub stored_bytes: u64,
    /// The offset of the footer.
    pub footer_offset: u64,
}

/// The first 32 bytes of a shard: the magic and 24 zeros.
const TAG: [u8; 32] = *b"XETSHARD\0\0\0\0\0\0\0\0\0\0\0\0\0\0\0\0\0\0\0\0\0\0\0\0";

/// The header of every shard.
pub const HEADER: MDBShardFileHeader = MDBShardFileHeader {
    tag: TAG,
    version: 2,
    footer_size: 200,
};

/// Reads the footer of a shard. Only the header and the footer are checked; the bytes between them are not
/// read. The error is that of the first check that fails. Allocates nothing.
pub fn read_footer(bytes: &[u8]) -> Result<MDBShardFileFooter, StoreError>
    ensures { result ≡ ends_of bytes.now }
{
    header(bytes)?;
    footer(bytes)
}

/// Returns what `read_footer` does for a shard of `len` bytes, from its first 48 bytes and its last 200
/// alone.
pub fn read_footer_of_ends(
    len: u64,
    first: &[u8],
    last: &[u8],
) -> Result<MDBShardFileFooter, StoreError>
    requires first { min len 48 ≤ length first.now }
    requires last { length last.now ≡ 200 }
    ensures exact { (bytes : List ℕ) → len ≡ length bytes → first.now ≡ take 48 bytes → last.now ≡ take 200 (drop (len - 200) bytes) → result ≡ ends_of bytes }
    ensures error { IfErr result (λ e. (e ≡ StoreError.UnexpectedEof) ⊎ ((reason : Reason) × (e ≡ StoreError.MalformedData reason))) }
{
    match header_of_first(len, first) {
        Ok(()) => footer_of_last(len, last),
        Err(error) => Err(error),
    }
}

/// Checks the header, and that there is room for a footer after it.
#[tactic(auto, using(crate::specs::theorems::FirstLast::header_of_first_is))]
pub fn header(bytes: &[u8]) -> Result<(), StoreError>
    ensures gives { Gives (λ _. tt) result (shard_header_at bytes.now) }
    ensures exact { result ≡ shard_header_at bytes.now }
    ensures long { OnOk result (248 ≤ length bytes.now) }
{
    header_of_first(bytes.len() as u64, bytes)?;
    Ok(())
}

/// Checks the header of a shard of `len` bytes by its first 48 bytes, or by all if it has fewer, and that
/// there is room for a footer after it.
#[tactic(auto, unfolding(crate::specs::Ends::header_of_first))]
pub fn header_of_first(len: u64, first: &[u8]) -> Result<(), StoreError>
    requires { min len 48 ≤ length first.now }
    ensures gives { Gives (λ _. tt) result (header_of_first len first.now) }
    ensures exact { result ≡ header_of_first len first.now }
    ensures long { OnOk result (248 ≤ len) }
{
    if len < 32 {
        return Err(StoreError::UnexpectedEof);
    }
    let (tag, _) = first.split_at(32);
    if tag != TAG.as_slice() {
        return Err(StoreError::MalformedData(Reason::Tag));
    }
    if len < 40 {
        return Err(StoreError::UnexpectedEof);
    }
    if word(first, 32) != 2 {
        return Err(StoreError::MalformedData(Reason::ShardVersion));
    }
    if len < 48 {
        return Err(StoreError::UnexpectedEof);
    }
    if word(first, 40) != 200 {
        return Err(StoreError::MalformedData(Reason::FooterSize));
    }
    if len < 248 {
        return Err(StoreError::UnexpectedEof);
    }
    Ok(())
}

/// Reads the footer. Checks its version and its 48 zeros, and that its offsets are those of parts without
/// gaps.
#[tactic(auto, using(crate::specs::theorems::FirstLast::footer_is))]
pub fn footer(bytes: &[u8]) -> Result<MDBShardFileFooter, StoreError>
    requires { 248 ≤ length bytes.now }
    ensures gives { Gives (λ f. f) result (shard_footer_at bytes.now) }
    ensures exact { result ≡ shard_footer_at bytes.now }
    ensures placed { IfOk result (IsPlaced (length bytes.now)) }
{
    let (_, last) = bytes.split_at(bytes.len() - 200);
    let footer = footer_of_last(bytes.len() as u64, last)?;
    Ok(footer)
}

/// Reads the footer of a shard of `len` bytes, of which `last` are the last 200.
#[tactic(auto, unfolding(crate::specs::Ends::footer_of_last))]
pub fn footer_of_last(len: u64, last: &[u8]) -> Result<MDBShardFileFooter, StoreError>
    requires { length last.now ≡ 200 }
    ensures gives { Gives (λ f. f) result (footer_of_last len last.now) }
    ensures exact { result ≡ footer_of_last len last.now }
    ensures placed { IfOk result (IsPlaced len) }
{
    if word(last, 0) != 1 {
        return Err(StoreError::MalformedData(Reason::ShardVersion));
    }
    let (_, rest) = last.split_at(120);
    let (unused, _) = rest.split_at(48);
    if unused != [0u8; 48].as_slice() {
        return Err(StoreError::MalformedData(Reason::SectionPlace));
    }
    let footer = footer_in(last);
    places(len, &footer)?;
    Ok(footer)
}

/// The fields of a footer, without checks.
#[tactic(auto, unfolding(crate::specs::Reading::footer_in))]
fn footer_in(bytes: &[u8]) -> MDBShardFileFooter
    requires { length bytes.now ≡ 200 }
    ensures { result ≡ footer_in bytes.now }
{
    MDBShardFileFooter {
        version: word(bytes, 0),
        file_info_offset: word(bytes, 8),
        xorb_info_offset: word(bytes, 16),
        file_lookup_offset: word(bytes, 24),
        file_lookup_num_entry: word(bytes, 32),
        xorb_lookup_offset: word(bytes, 40),
        xorb_lookup_num_entry: word(bytes, 48),
        chunk_lookup_offset: word(bytes, 56),
        chunk_lookup_num_entry: word(bytes, 64),
        chunk_hash_hmac_key: hash_at(bytes, 72),
        shard_creation_timestamp: word(bytes, 104),
        shard_key_expiry: word(bytes, 112),
        stored_bytes_on_disk: word(bytes, 168),
        materialized_bytes: word(bytes, 176),
        stored_bytes: word(bytes, 184),
        footer_offset: word(bytes, 192),
    }
}

/// Checks that the parts of a shard of `len` bytes follow each other without gaps.
#[tactic(auto, using(crate::specs::theorems::Footers::places_take))]
fn places(len: u64, f: &MDBShardFileFooter) -> Result<(), StoreError>
    ensures gives { Gives (λ _. tt) result (places_at len f.now) }
    ensures exact { result ≡ places_at len f.now }
    ensures placed { OnOk result (IsPlaced len f.now) }
{
    places_follow(len, f)?;
    Ok(())
}

/// The checks that `places` makes.
#[tactic(auto, unfolding(crate::specs::Reading::places_at))]
fn places_follow(len: u64, f: &MDBShardFileFooter) -> Result<(), StoreError>
    ensures gives { Gives (λ _. tt) result (places_at len f.now) }
    ensures exact { result ≡ places_at len f.now }
{
    let file_rows = f.xorb_info_offset.saturating_sub(f.file_info_offset) / 48;
    let xorb_rows = f.file_lookup_offset.saturating_sub(f.xorb_info_offset) / 48;
    if f.file_info_offset != 48
        || !follows(f.xorb_info_offset, f.file_info_offset, 48, file_rows)
        || file_rows == 0
        || file_rows >= 1 << 32
        || !follows(f.file_lookup_offset, f.xorb_info_offset, 48, xorb_rows)
        || xorb_rows == 0
        || xorb_rows >= 1 << 32
        || !follows(
            f.xorb_lookup_offset,
            f.file_lookup_offset,
            12,
            f.file_lookup_num_entry,
        )
        || !follows(
            f.chunk_lookup_offset,
            f.xorb_lookup_offset,
            12,
            f.xorb_lookup_num_entry,
        )
        || !follows(
            f.footer_offset,
            f.chunk_lookup_offset,
            16,
            f.chunk_lookup_num_entry,
        )
        || !follows(len, f.footer_offset, 200, 1)
    {
        return Err(StoreError::MalformedData(Reason::SectionPlace));
    }
    Ok(())
}

/// Whether `to` is the offset after `count` items of `size` bytes each, the first of which is at offset
/// `from`.
pub fn follows(to: u64, from: u64, size: u64, count: u64) -> bool
    ensures { result ≡ (to == from + size * count) }
{
    match size.checked_mul(count) {
        None => false,
        Some(len) => match from.checked_add(len) {
            None => false,
            Some(end) => to == end,
        },
    }
}
