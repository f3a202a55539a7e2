//! The limits of a store.

ghost use Rattle.std.specs.Prelude.{◌≡◌, ◌≤◌, ◌<◌, ◌^◌, ◌/◌, None, IfOk, IfErr, IsSomeAnd, IsTrue};

use std::marker::Model;
use xet_hash::{Field, StoreError};
use xet_xorb_chunk::CompressionScheme;

/// Settings for `Limits::new`, each with its range. Lengths and sizes are in bytes.
#[derive(Clone, Copy, PartialEq, Eq, Debug)]
pub struct LimitSettings {
    /// Target (average) chunk size: a power of two from 128 to 4,194,304.
    pub target_chunk: u32,
    /// Minimum size of a chunk that is not the last: from 1, below `maximum_chunk`.
    pub minimum_chunk: u32,
    /// Maximum chunk size: below 8,388,608.
    pub maximum_chunk: u32,
    /// Maximum number of uncompressed bytes of a xorb: from `maximum_chunk` to 2^30.
    pub cut_bytes: u32,
    /// Maximum number of chunks of a xorb: from 1 to 65,536.
    pub cut_chunks: u32,
    /// Size above which the pending shard is written: below 2^32.
    pub shard_target: u64,
    /// Number of ranges that the fragmentation guard looks at: from 1 to 65,536.
    pub guard_window: u32,
    /// The guard's minimum mean number of chunks of a range, as numerator and denominator. The denominator is
    /// not 0.
    pub min_range: (u32, u32),
    /// Factor of `min_range` after a rejection, as numerator and denominator. The denominator is not 0.
    pub low_factor: (u32, u32),
    /// Maximum number of bytes of one read: from 1 to 2^30.
    pub block_bytes: u32,
    /// Maximum length of a source: from 1 to 2^42, and below 2^30 when divided by `minimum_chunk`.
    pub max_source_bytes: u64,
    /// How chunks are stored: `None` or `Auto`.
    pub scheme: CompressionScheme,
    /// Maximum number of different first words of chunk hashes in the index.
    pub index_cap: u64,
    /// Number of seconds for which an expired shard is retained.
    pub expiry_buffer: u64,
    /// Gear table: a word for each byte value, from which the Gear hash is computed.
    pub gear: [u64; 256],
}

impl LimitSettings {
    ghost use Rattle.xet_cut.specs.Limits.{shown_settings};

    /// The default settings, with this Gear table.
    pub fn shown(gear: [u64; 256]) -> LimitSettings
        ensures { result ≡ shown_settings gear }
    {
        LimitSettings {
            target_chunk: 65_536,
            minimum_chunk: 8_192,
            maximum_chunk: 131_072,
            cut_bytes: 67_108_864,
            cut_chunks: 8_192,
            shard_target: 67_108_864,
            guard_window: 128,
            min_range: (8, 1),
            low_factor: (1, 2),
            block_bytes: 8_388_608,
            max_source_bytes: 1 << 42,
            scheme: CompressionScheme::Auto,
            index_cap: 67_108_864,
            expiry_buffer: 604_800,
            gear,
        }
    }
}

/// Limits that are all in their ranges. Contracts see the settings.
#[derive(Clone, Copy, PartialEq, Eq, Debug)]
pub struct Limits {
    settings: LimitSettings,
}

impl Model for Limits {
    ghost use Rattle.xet_cut.specs.declared.limits.LimitSettings.{LimitSettings};
    ghost use Rattle.xet_cut.specs.Limits.{AreInRange};

    ghost Value = { LimitSettings };

    ghost view = { λ l. l.settings };

    ghost invariant = { λ l. AreInRange l.settings };

    ghost inverse = { λ s. record { settings = s } };
}

impl Limits {
    ghost use Rattle.std.specs.Int.{is_power_of_two};
    ghost use Rattle.xet_cut.specs.Limits.{AreInRange, bad_field, is_plain_scheme};

    /// Limits with these settings. The error is `BadLimits` with the first limit, in the order of the fields,
    /// that is out of its range.
    pub fn new(settings: LimitSettings) -> Result<Limits, StoreError>
        ensures ok { IfOk result (λ limits. (limits ≡ settings) × (bad_field settings ≡ None)) }
        ensures refused { IfErr result (λ error. IsSomeAnd (bad_field settings) (λ field. error ≡ StoreError.BadLimits field)) }
    {
        match bad_field(&settings) {
            Some(field) => Err(StoreError::BadLimits(field)),
            None => Ok(Limits { settings }),
        }
    }

    /// Proof aid without effect: makes it available to the caller that all limits are in their ranges.
    pub fn recall_invariant(&self)
        ensures { AreInRange self.now }
    {
        let _ = &self.settings;
    }

    /// Target (average) chunk size in bytes: a power of two.
    pub fn target_chunk(&self) -> u32
        ensures value { result ≡ self.now.target_chunk }
        ensures power { IsTrue (is_power_of_two result) }
        ensures range { (128 ≤ result) × (result ≤ 4194304) }
    {
        self.settings.target_chunk
    }

    /// Minimum size of a chunk that is not the last, in bytes.
    pub fn minimum_chunk(&self) -> u32
        ensures value { result ≡ self.now.minimum_chunk }
        ensures range { (1 ≤ result) × (result < self.now.maximum_chunk) }
    {
        self.settings.minimum_chunk
    }

    /// Maximum chunk size in bytes.
    pub fn maximum_chunk(&self) -> u32
        ensures value { result ≡ self.now.maximum_chunk }
        ensures range { result < 8388608 }
    {
        self.settings.maximum_chunk
    }

    /// Maximum number of uncompressed bytes of a xorb.
    pub fn cut_bytes(&self) -> u32
        ensures value { result ≡ self.now.cut_bytes }
        ensures range { (self.now.maximum_chunk ≤ result) × (result ≤ 2 ^ 30) }
    {
        self.settings.cut_bytes
    }

    /// Maximum number of chunks of a xorb.
    pub fn cut_chunks(&self) -> u32
        ensures value { result ≡ self.now.cut_chunks }
        ensures range { (1 ≤ result) × (result ≤ 65536) }
    {
        self.settings.cut_chunks
    }

    /// Size above which the pending shard is written, in bytes.
    pub fn shard_target(&self) -> u64
        ensures value { result ≡ self.now.shard_target }
        ensures range { result < 2 ^ 32 }
    {
        self.settings.shard_target
    }

    /// Number of ranges that the fragmentation guard looks at.
    pub fn guard_window(&self) -> u32
        ensures value { result ≡ self.now.guard_window }
        ensures range { (1 ≤ result) × (result ≤ 65536) }
    {
        self.settings.guard_window
    }

    /// The guard's minimum mean number of chunks of a range, as numerator and denominator.
    pub fn min_range(&self) -> (u32, u32)
        ensures value { result ≡ self.now.min_range }
        ensures range { 1 ≤ result.1 }
    {
        self.settings.min_range
    }

    /// Factor of `min_range` after a rejection, as numerator and denominator.
    pub fn low_factor(&self) -> (u32, u32)
        ensures value { result ≡ self.now.low_factor }
        ensures range { 1 ≤ result.1 }
    {
        self.settings.low_factor
    }

    /// Maximum number of bytes of one read.
    pub fn block_bytes(&self) -> u32
        ensures value { result ≡ self.now.block_bytes }
        ensures range { (1 ≤ result) × (result ≤ 2 ^ 30) }
    {
        self.settings.block_bytes
    }

    /// Maximum length of a source in bytes.
    pub fn max_source_bytes(&self) -> u64
        ensures value { result ≡ self.now.max_source_bytes }
        ensures range { (1 ≤ result) × (result ≤ 2 ^ 42) }
        ensures chunks { result / self.now.minimum_chunk < 2 ^ 30 }
    {
        self.settings.max_source_bytes
    }

    /// How chunks are stored: `None` or `Auto`.
    pub fn scheme(&self) -> CompressionScheme
        ensures value { result ≡ self.now.scheme }
        ensures range { IsTrue (is_plain_scheme result) }
    {
        self.settings.scheme
    }

    /// Maximum number of different first words of chunk hashes in the index.
    pub fn index_cap(&self) -> u64
        ensures { result ≡ self.now.index_cap }
    {
        self.settings.index_cap
    }

    /// Number of seconds for which an expired shard is retained.
    pub fn expiry_buffer(&self) -> u64
        ensures { result ≡ self.now.expiry_buffer }
    {
        self.settings.expiry_buffer
    }

    /// Gear table: a word for each byte value, from which the Gear hash is computed.
    pub fn gear(&self) -> &[u64; 256]
        ensures { result.now ≡ self.now.gear }
    {
        &self.settings.gear
    }
}

/// The limits that have a range, in the order in which they are checked.
const FIELDS: [Field; 12] = [
    Field::TargetChunk,
    Field::MinimumChunk,
    Field::MaximumChunk,
    Field::CutBytes,
    Field::CutChunks,
    Field::ShardTarget,
    Field::GuardWindow,
    Field::MinRange,
    Field::LowFactor,
    Field::BlockBytes,
    Field::MaxSourceBytes,
    Field::Scheme,
];

ghost use Rattle.xet_cut.specs.Limits.{bad_field, in_range};

/// The first limit that is out of its range.
#[tactic(auto, unfolding(crate::specs::Limits::bad_field))]
fn bad_field(settings: &LimitSettings) -> Option<Field>
    ensures { result ≡ bad_field settings.now }
{
    FIELDS
        .iter()
        .copied()
        .find(|field| !is_in_range(settings, *field))
}

/// Whether a limit is in its range.
fn is_in_range(s: &LimitSettings, field: Field) -> bool
    ensures { result ≡ in_range s.now field }
{
    match field {
        Field::TargetChunk => {
            s.target_chunk.is_power_of_two() && 128 <= s.target_chunk && s.target_chunk <= 4_194_304
        }
        Field::MinimumChunk => 1 <= s.minimum_chunk && s.minimum_chunk < s.maximum_chunk,
        Field::MaximumChunk => s.maximum_chunk < 8_388_608,
        Field::CutBytes => s.maximum_chunk <= s.cut_bytes && s.cut_bytes <= 1 << 30,
        Field::CutChunks => 1 <= s.cut_chunks && s.cut_chunks <= 65_536,
        Field::ShardTarget => s.shard_target < 1 << 32,
        Field::GuardWindow => 1 <= s.guard_window && s.guard_window <= 65_536,
        Field::MinRange => 1 <= s.min_range.1,
        Field::LowFactor => 1 <= s.low_factor.1,
        Field::BlockBytes => 1 <= s.block_bytes && s.block_bytes <= 1 << 30,
        Field::MaxSourceBytes => is_source_length(s),
        Field::Scheme => matches!(s.scheme, CompressionScheme::None | CompressionScheme::Auto),
    }
}

/// Whether the maximum length of a source is in its range.
fn is_source_length(s: &LimitSettings) -> bool
    ensures { result ≡ in_range s.now Field.MaxSourceBytes }
{
    let chunks = s
        .max_source_bytes
        .checked_div(u64::from(s.minimum_chunk))
        .unwrap_or(0);
    1 <= s.max_source_bytes && s.max_source_bytes <= 1 << 42 && chunks < 1 << 30
}
