//! Parsing of the arguments.

ghost use Rattle.std.specs.Prelude.{◌≡◌, ◌≤◌, false, length, map, replicate, string_bytes, IsTrue, IfOk, IfSome};
ghost use Rattle.std.specs.Char.{is_ascii_digit};
ghost use Rattle.std.specs.List.{list_all, list_any};
ghost use Rattle.std.specs.Option.{option_map};
ghost use Rattle.xet_arguments.specs.Arguments.{is_option};
ghost use Rattle.xet_program.specs.Tasks.{default_limits};
ghost use Rattle.xet_program.specs.Words.{alone, clean_of, command_by, command_of, gear_of, hash_of_text, is_digits, is_target, make_by, make_of, number_of, pack_by, pack_of, pack_settings, read_by, read_of, target_of, workers_of};
ghost use Rattle.xet_program.specs.Words.Command.{Group, ListFiles};
ghost use Rattle.xet_program.specs.internal.Asked.{AllowsInput, asked, workers_given};

use std::alloc::{AllocError, Global};
use xet_arguments::{
    has_option, make_arguments, no_arguments, pack_arguments, read_arguments, some_arguments,
};
use xet_cut::{LimitSettings, Limits, gear_table};
use xet_hash::{DataHash, MerkleHash};
use xet_shard_file::recall_bytes;

/// A command of the program, with its arguments.
#[derive(Clone, Copy, Debug)]
pub enum Command<'a> {
    /// Stores the files of the input's lines, under these limits, by so many workers, and reports them and their ranges.
    Pack(Limits, u32),
    /// Stores the files with these names, and reports them.
    Clean(&'a [String]),
    /// Stores a generated file of this seed and length, and then the same file with one byte inserted, and prints how
    /// many chunks each has and how many of them were new.
    Make(u64, u64),
    /// Prints bytes FROM..TO, TO excluded, of the file with this hash.
    Read(MerkleHash, u64, u64),
    /// Lists the files of the store.
    ListFiles,
    /// Prints the input in four groups of bytes.
    Group,
}

/// The maximum number of names.
const MAX_NAMES: usize = 1 << 20;

/// The maximum length of a generated file, in bytes.
const MAX_GENERATED: u64 = 67_108_864;

/// The command of these arguments; none if they are invalid. The limits of `pack` allow a source as long as the
/// longest input, and its workers are from 1 to 256. The only error is out of memory.
pub fn command_of(alloc: Global, words: &[String]) -> Result<Option<Command<'_>>, AllocError>
    ensures command { IfOk result (λ found. option_map asked found ≡ command_of (map string_bytes words.now)) }
    ensures allows { IfOk result (λ found. IfSome found (λ command. AllowsInput (asked command))) }
{
    if has_option(words) {
        return Ok(None);
    }
    match words.split_first() {
        Some((name, arguments)) => command_by(alloc, name.as_str(), arguments),
        None => Ok(None),
    }
}

/// The command of a name and its arguments.
#[tactic(auto, unfolding(crate::specs::Words::command_by))]
fn command_by<'a>(
    alloc: Global,
    name: &str,
    arguments: &'a [String],
) -> Result<Option<Command<'a>>, AllocError>
    requires { list_any is_option (map string_bytes arguments.now) ≡ false }
    ensures { IfOk result (λ found. option_map asked found ≡ command_by name.now (map string_bytes arguments.now)) }
{
    match name {
        "pack" => pack_of(alloc, arguments),
        "clean" => clean_of(alloc, arguments),
        "make" => make_of(alloc, arguments),
        "read" => read_of(alloc, arguments),
        "list" => list_of(alloc, arguments),
        "group" => group_of(alloc, arguments),
        _ => Ok(None),
    }
}

/// `pack TARGET GEAR [WORKERS]`
fn pack_of<'a>(alloc: Global, arguments: &[String]) -> Result<Option<Command<'a>>, AllocError>
    requires { list_any is_option (map string_bytes arguments.now) ≡ false }
    ensures { IfOk result (λ found. option_map asked found ≡ pack_of (map string_bytes arguments.now)) }
{
    let found = pack_arguments(alloc, arguments)?;
    match found {
        Some(texts) => Ok(pack_by(texts.target, texts.gear, texts.workers)),
        None => Ok(None),
    }
}

/// `pack` with a target chunk size, a Gear table and a number of workers, if one is given.
fn pack_by<'a>(target: &str, gear: &str, workers: Option<&str>) -> Option<Command<'a>>
    ensures { option_map asked result ≡ pack_by (target_of target.now) (gear_of gear.now)
        (workers_given (option_map (λ word. word.now) workers.entry)) }
{
    let target = target_of(target)?;
    let gear = gear_of(gear)?;
    let workers = workers_given(workers)?;
    Some(Command::Pack(pack_limits(target, gear), workers))
}

/// `clean NAME..`
fn clean_of<'a>(alloc: Global, names: &'a [String]) -> Result<Option<Command<'a>>, AllocError>
    requires { list_any is_option (map string_bytes names.now) ≡ false }
    ensures { IfOk result (λ found. option_map asked found ≡ clean_of (map string_bytes names.now)) }
{
    let some = some_arguments(alloc, names)?;
    if some { Ok(clean_by(names)) } else { Ok(None) }
}

/// `clean` with these names.
fn clean_by<'a>(names: &'a [String]) -> Option<Command<'a>>
    requires { 1 ≤ length names.now }
    ensures { option_map asked result ≡ clean_of (map string_bytes names.now) }
{
    if names.len() > MAX_NAMES {
        None
    } else {
        Some(Command::Clean(names))
    }
}

/// `make SEED BYTES`
fn make_of<'a>(alloc: Global, arguments: &[String]) -> Result<Option<Command<'a>>, AllocError>
    requires { list_any is_option (map string_bytes arguments.now) ≡ false }
    ensures { IfOk result (λ found. option_map asked found ≡ make_of (map string_bytes arguments.now)) }
{
    let found = make_arguments(alloc, arguments)?;
    match found {
        Some(texts) => Ok(make_by(texts.seed, texts.bytes)),
        None => Ok(None),
    }
}

/// `make` with a seed and a length.
fn make_by<'a>(seed: &str, bytes: &str) -> Option<Command<'a>>
    ensures { option_map asked result ≡ make_by (number_of seed.now) (number_of bytes.now) }
{
    let seed = number_of(seed)?;
    let bytes = number_of(bytes)?;
    if 1 <= bytes && bytes <= MAX_GENERATED {
        Some(Command::Make(seed, bytes))
    } else {
        None
    }
}

/// `read HASH FROM TO`
fn read_of<'a>(alloc: Global, arguments: &[String]) -> Result<Option<Command<'a>>, AllocError>
    requires { list_any is_option (map string_bytes arguments.now) ≡ false }
    ensures { IfOk result (λ found. option_map asked found ≡ read_of (map string_bytes arguments.now)) }
{
    let found = read_arguments(alloc, arguments)?;
    match found {
        Some(texts) => Ok(read_by(texts.hash, texts.from, texts.to)),
        None => Ok(None),
    }
}

/// `read` with a hash and two offsets.
fn read_by<'a>(hash: &str, from: &str, to: &str) -> Option<Command<'a>>
    ensures { option_map asked result ≡ read_by (hash_of_text hash.now) (number_of from.now) (number_of to.now) }
{
    let hash = hash_of(hash)?;
    let from = number_of(from)?;
    let to = number_of(to)?;
    Some(Command::Read(hash, from, to))
}

/// `list`
fn list_of<'a>(alloc: Global, arguments: &[String]) -> Result<Option<Command<'a>>, AllocError>
    requires { list_any is_option (map string_bytes arguments.now) ≡ false }
    ensures { IfOk result (λ found. option_map asked found ≡ alone ListFiles (map string_bytes arguments.now)) }
{
    let empty = no_arguments(alloc, arguments)?;
    Ok(empty.then_some(Command::ListFiles))
}

/// `group`
fn group_of<'a>(alloc: Global, arguments: &[String]) -> Result<Option<Command<'a>>, AllocError>
    requires { list_any is_option (map string_bytes arguments.now) ≡ false }
    ensures { IfOk result (λ found. option_map asked found ≡ alone Group (map string_bytes arguments.now)) }
{
    let empty = no_arguments(alloc, arguments)?;
    Ok(empty.then_some(Command::Group))
}

/// The hash of a text form.
fn hash_of(word: &str) -> Option<MerkleHash>
    ensures { result ≡ hash_of_text word.now }
{
    match DataHash::from_hex(word) {
        Ok(hash) => {
            recall_bytes(&hash);
            Some(hash)
        }
        Err(_) => None,
    }
}

/// The limits of all commands but `pack`: the default ones, with the Gear table of seed 0.
pub fn default_limits() -> Limits
    ensures { result ≡ default_limits }
{
    match Limits::new(LimitSettings::shown(gear_table(0))) {
        Ok(limits) => limits,
        Err(_) => unreachable!(),
    }
}

/// The limits of `pack`: the default ones, with a minimum, a maximum and a source length that follow from the
/// target chunk size.
fn pack_limits(target: u32, gear: [u64; 256]) -> Limits
    requires { IsTrue (is_target target) }
    ensures { result ≡ pack_settings target gear }
{
    match Limits::new(pack_settings(target, gear)) {
        Ok(limits) => limits,
        Err(_) => unreachable!(),
    }
}

fn pack_settings(target: u32, gear: [u64; 256]) -> LimitSettings
    requires { target ≤ 2097152 }
    ensures { result ≡ pack_settings target gear }
{
    let minimum = target / 8;
    LimitSettings {
        target_chunk: target,
        minimum_chunk: minimum,
        maximum_chunk: 2 * target,
        max_source_bytes: ((1 << 29) * u64::from(minimum)).min(1 << 42),
        ..LimitSettings::shown(gear)
    }
}

/// A target chunk size: a power of two from 128 to 2,097,152.
fn target_of(word: &str) -> Option<u32>
    ensures value { result ≡ target_of word.now }
    ensures range { IfSome result (λ target. IsTrue (is_target target)) }
{
    let number = number_of(word)?;
    if number.is_power_of_two() && 128 <= number && number <= 2_097_152 {
        Some(number as u32)
    } else {
        None
    }
}

/// The number of workers that is given, or 1.
fn workers_given(word: Option<&str>) -> Option<u32>
    ensures { result ≡ workers_given (option_map (λ word. word.now) word.entry) }
{
    match word {
        Some(word) => workers_of(word),
        None => Some(1),
    }
}

/// A number of workers: from 1 to 256.
fn workers_of(word: &str) -> Option<u32>
    ensures { result ≡ workers_of word.now }
{
    let number = number_of(word)?;
    if 1 <= number && number <= 256 {
        Some(number as u32)
    } else {
        None
    }
}

/// A Gear table: `zero`, `one`, or the number of a seed.
fn gear_of(word: &str) -> Option<[u64; 256]>
    ensures { result ≡ gear_of word.now }
{
    match word {
        "zero" => Some(constant_table(0)),
        "one" => Some(constant_table(1)),
        _ => Some(gear_table(number_of(word)?)),
    }
}

fn constant_table(word: u64) -> [u64; 256]
    ensures { result ≡ replicate 256 word }
{
    [word; 256]
}

/// A number: 1 to 20 decimal digits, below 2^64.
fn number_of(word: &str) -> Option<u64>
    ensures { result ≡ number_of word.now }
{
    if is_digits(word) {
        word.parse().ok()
    } else {
        None
    }
}

/// The same from bytes.
pub fn number_in(bytes: &[u8]) -> Option<u64>
    ensures { result ≡ number_of bytes.now }
{
    match str::from_utf8(bytes) {
        Ok(word) => number_of(word),
        Err(_) => None,
    }
}

/// Whether a word is 1 to 20 decimal digits.
fn is_digits(word: &str) -> bool
    ensures { result ≡ is_digits word.now }
{
    1 <= word.len() && word.len() <= 20 && all_digits(word)
}

fn all_digits(word: &str) -> bool
    ensures { result ≡ list_all is_ascii_digit word.now }
{
    word.as_bytes().iter().all(|b| b.is_ascii_digit())
}
