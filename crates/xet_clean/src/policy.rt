//! The SHA-256 of a file: where it comes from.

ghost use Rattle.std.specs.Prelude.{◌≡◌, ◌++◌, [], List, None, Ok, Some, false, true, ℕ};
ghost use Rattle.sha2.specs.Sha256.{sha256 as sha256_of};
ghost use Rattle.hex.specs.Hex.{decode_of};
ghost use Rattle.xet_clean.specs.Policies.{HasBytes, HasBytesBy, sha256_by};
ghost use Rattle.xet_hash.specs.Hash.{IsHashText};

use sha2::Digest;
use xet_shard_format::Sha256;

/// Where the SHA-256 of a file comes from.
#[derive(Clone, Copy, PartialEq, Eq, Debug)]
pub enum Sha256Policy {
    /// It is computed from the bytes of the file.
    Compute,
    /// It is this one. It is recorded as given, and not compared with the bytes.
    Provided(Sha256),
    /// The file has none.
    Skip,
}

impl Sha256Policy {
    /// `Skip` if `skip`, else `Compute`.
    pub fn from_skip(skip: bool) -> Sha256Policy
        ensures skips { skip ≡ true → result ≡ Sha256Policy.Skip }
        ensures computes { skip ≡ false → result ≡ Sha256Policy.Compute }
    {
        if skip {
            Sha256Policy::Skip
        } else {
            Sha256Policy::Compute
        }
    }

    /// `Provided` with the digest that the text shows, 64 hexadecimal digits; `Compute` for any other text.
    pub fn from_hex(text: &str) -> Sha256Policy
        ensures provided { IsHashText text.now → (digest : List ℕ) × (decode_of text.now ≡ Ok digest) × (result ≡ Sha256Policy.Provided digest) }
        ensures computes { (IsHashText text.now → ⊥) → result ≡ Sha256Policy.Compute }
    {
        match Sha256::from_hex(text) {
            Ok(digest) => Sha256Policy::Provided(digest),
            Err(_) => Sha256Policy::Compute,
        }
    }
}

impl From<Option<Sha256>> for Sha256Policy {
    ghost use Rattle.xet_clean.specs.Policies.{policy_of};

    ghost from_gives = { λ digest policy. policy ≡ policy_of digest };

    /// `Provided` with the digest if there is one, else `Compute`.
    fn from(digest: Option<Sha256>) -> Sha256Policy {
        match digest {
            Some(digest) => Sha256Policy::Provided(digest),
            None => Sha256Policy::Compute,
        }
    }
}

/// Computes the SHA-256 of bytes that come in pieces.
#[derive(Drop)]
pub struct Sha256Generator {
    hasher: sha2::Sha256,
}

impl Sha256Generator {
    /// Begins with no bytes.
    pub fn new() -> Sha256Generator
        ensures { HasBytes result [] }
    {
        Sha256Generator {
            hasher: sha2::Sha256::new(),
        }
    }

    /// Takes the next bytes.
    pub fn update(&mut self, bytes: &[u8])
        ensures { (before : List ℕ) → HasBytes self.old before → HasBytes self.new (before ++ bytes.now) }
    {
        self.hasher.update(bytes);
    }

    /// The SHA-256 of all bytes.
    pub fn finalize(self) -> Sha256
        ensures { (bytes : List ℕ) → HasBytes self bytes → result ≡ sha256_of bytes }
    {
        let Sha256Generator { hasher } = self;
        Sha256::from_bytes(hasher.finalize().into())
    }

    /// Takes the next bytes if the SHA-256 is computed.
    pub fn update_by(&mut self, policy: &Sha256Policy, bytes: &[u8])
        ensures { (before : List ℕ) → HasBytesBy policy.now self.old before → HasBytesBy policy.now self.new (before ++ bytes.now) }
    {
        match policy {
            Sha256Policy::Compute => self.update(bytes),
            Sha256Policy::Provided(_) => {}
            Sha256Policy::Skip => {}
        }
    }

    /// The SHA-256 that a file of these bytes gets.
    pub fn finalize_by(self, policy: &Sha256Policy) -> Option<Sha256>
        ensures { (bytes : List ℕ) → HasBytesBy policy.now self bytes → result ≡ sha256_by policy.now bytes }
    {
        match policy {
            Sha256Policy::Compute => Some(self.finalize()),
            Sha256Policy::Provided(digest) => Some(*digest),
            Sha256Policy::Skip => None,
        }
    }
}

impl Default for Sha256Generator {
    ghost is_default = { λ g. HasBytes g [] };

    /// Begins with no bytes.
    fn default() -> Sha256Generator {
        Sha256Generator::new()
    }
}
