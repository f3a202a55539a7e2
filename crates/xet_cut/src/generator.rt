//! SplitMix64, which generates Gear tables and files for tests.

ghost use Rattle.std.specs.Prelude.{◌≡◌, IfOk, IsOkUnless};
ghost use Rattle.xet_cut.specs.Generator.{gear_table, generated, mixed};

use std::alloc::Global;
use xet_hash::StoreError;

/// What each output adds to the state.
const STEP: u64 = 0x9E37_79B9_7F4A_7C15;

/// The output for a state.
#[tactic(auto, unfolding(crate::specs::Generator::mixed))]
fn mixed(state: u64) -> u64
    ensures { result ≡ mixed state }
{
    let z = (state ^ (state >> 30)).wrapping_mul(0xBF58_476D_1CE4_E5B9);
    let z = (z ^ (z >> 27)).wrapping_mul(0x94D0_49BB_1331_11EB);
    z ^ (z >> 31)
}

/// The Gear table of a seed: the first 256 outputs of SplitMix64. Does not allocate.
pub fn gear_table(seed: u64) -> [u64; 256]
    ensures { result ≡ gear_table seed }
{
    let mut table = [0u64; 256];
    let mut state = seed;
    for i in 0..256 {
        state = state.wrapping_add(STEP);
        table[i] = mixed(state);
    }
    table
}

/// A file of `length` bytes: the little-endian bytes of the outputs from a seed. The only error is out of
/// memory.
pub fn generated(alloc: Global, seed: u64, length: usize) -> Result<Vec<u8>, StoreError>
    ensures bytes { IfOk result (λ bytes. bytes.items ≡ generated seed length) }
    ensures memory { IsOkUnless result StoreError.OutOfMemory }
{
    let mut bytes = Vec::with_capacity(alloc, length)?;
    let mut state = seed;
    let mut word = [0u8; 8];
    for i in 0..length {
        if i % 8 == 0 {
            state = state.wrapping_add(STEP);
            word = mixed(state).to_le_bytes();
        }
        bytes.push(word[i % 8])?;
    }
    Ok(bytes)
}
