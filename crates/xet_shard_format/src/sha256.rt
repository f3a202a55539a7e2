//! SHA-256 digests and their text form.

ghost use Rattle.std.specs.Prelude.{◌≡◌, ◌↔◌, IfErr, IfOk, IsOk, IsOkUnless, List, Ok, length, string_bytes, ℕ};
ghost use Rattle.hex.specs.Hex.{IsBytes, decode_of, encode_lower};
ghost use Rattle.xet_hash.specs.Hash.{IsHashText, zero_hash};

use hex::FromHex;
use std::alloc::Global;
use std::marker::Model;
use xet_hash::{Reason, StoreError};

/// A SHA-256 digest (FIPS 180-4). Contracts see its bytes.
#[derive(Clone, Copy, PartialEq, Eq, Debug)]
pub struct Sha256 {
    bytes: [u8; 32],
}

impl Model for Sha256 {
    ghost use Rattle.std.specs.Prelude.{List, ℕ};

    ghost Value = { List ℕ };

    ghost view = { λ s. s.bytes };

    ghost inverse = { λ b. record { bytes = b } };
}

impl Sha256 {
    /// The digest with these bytes.
    pub fn from_bytes(bytes: [u8; 32]) -> Sha256
        ensures { result ≡ bytes }
    {
        Sha256 { bytes }
    }

    /// Reads the text form: 64 hexadecimal digits of either case, two for each byte, in order. Any other text
    /// is `MalformedData(HexText)`.
    pub fn from_hex(text: &str) -> Result<Sha256, StoreError>
        ensures digits { IsOk result ↔ IsHashText text.now }
        ensures refused { IfErr result (λ error. error ≡ StoreError.MalformedData Reason.HexText) }
        ensures digest { IfOk result (λ digest. decode_of text.now ≡ Ok digest) }
        ensures inverts { (digest : List ℕ) → length digest ≡ 32 → IsBytes digest → text.now ≡ encode_lower digest → result ≡ Ok digest }
    {
        match <[u8; 32] as FromHex>::from_hex(text) {
            Ok(bytes) => Ok(Sha256 { bytes }),
            Err(_) => Err(StoreError::MalformedData(Reason::HexText)),
        }
    }

    /// The bytes of the digest.
    pub fn as_bytes(&self) -> &[u8; 32]
        ensures { result.now ≡ self.now }
    {
        &self.bytes
    }

    /// The text form: 64 lower-case hexadecimal digits, two for each byte, in order. The only error is
    /// `StoreError::OutOfMemory`.
    pub fn hex(&self, alloc: Global) -> Result<String, StoreError>
        ensures text { IfOk result (λ text. string_bytes text ≡ encode_lower self.now) }
        ensures memory { IsOkUnless result StoreError.OutOfMemory }
    {
        Ok(hex::encode(alloc, self.bytes.as_slice())?)
    }
}

impl Default for Sha256 {
    ghost is_default = { λ digest. digest ≡ zero_hash };

    /// 32 zero bytes.
    fn default() -> Sha256 {
        Sha256 { bytes: [0; 32] }
    }
}
