//! Little-endian numbers and hashes in the bytes of a field.

ghost use Rattle.std.specs.Prelude.{◌≡◌, ◌≤◌, ◌+◌, ◌*◌, ◌++◌, OnOk, length, take, vec_len};
ghost use Rattle.std.specs.Int.{from_le_bytes, w32};
ghost use Rattle.xet_xorb_footer.specs.internal.Items.{hashes_in, numbers_in};

use std::alloc::AllocError;
use xet_hash::MerkleHash;

/// The number in the first four bytes.
pub(crate) fn number_of(bytes: &[u8]) -> u32
    requires { 4 ≤ length bytes.now }
    ensures first { result ≡ from_le_bytes w32 (take 4 bytes.now) }
    ensures whole { length bytes.now ≡ 4 → result ≡ from_le_bytes w32 bytes.now }
{
    let b = &bytes[..4];
    u32::from_le_bytes([b[0], b[1], b[2], b[3]])
}

/// The hash in the first 32 bytes.
pub(crate) fn hash_of(bytes: &[u8]) -> MerkleHash
    requires { 32 ≤ length bytes.now }
    ensures first { result ≡ take 32 bytes.now }
    ensures whole { length bytes.now ≡ 32 → result ≡ bytes.now }
{
    let mut hash = [0; 32];
    hash.copy_from_slice(&bytes[..32]);
    MerkleHash::from_bytes(hash)
}

/// Appends the first `count` numbers of a field.
pub(crate) fn push_numbers(
    list: &mut Vec<u32>,
    field: &[u8],
    count: usize,
) -> Result<(), AllocError>
    requires { 4 * count ≤ length field.now }
    ensures items { OnOk result (list.new.items ≡ list.old.items ++ numbers_in count field.now) }
    ensures bound { vec_len list.new ≤ vec_len list.old + count }
{
    let mut rest = field;
    for _done in 0..count {
        list.push(number_of(rest))?;
        let (_, behind) = rest.split_at(4);
        rest = behind;
    }
    Ok(())
}

/// Appends the first `count` hashes of a field.
pub(crate) fn push_hashes(
    list: &mut Vec<MerkleHash>,
    field: &[u8],
    count: usize,
) -> Result<(), AllocError>
    requires { 32 * count ≤ length field.now }
    ensures items { OnOk result (list.new.items ≡ list.old.items ++ hashes_in count field.now) }
    ensures bound { vec_len list.new ≤ vec_len list.old + count }
{
    let mut rest = field;
    for _done in 0..count {
        list.push(hash_of(rest))?;
        let (_, behind) = rest.split_at(32);
        rest = behind;
    }
    Ok(())
}
