//! The arguments of each command. The only error is out of memory.

ghost use Rattle.std.specs.Prelude.{◌≡◌, ◌≤◌, ◌==◌, IfOk, codes, false, length, map, nat_lt, option_map, string_bytes};
ghost use Rattle.std.specs.List.{list_any};
ghost use Rattle.clap.specs.Lexer.{usize_max};
ghost use Rattle.xet_arguments.specs.Arguments.{is_option, make_texts, pack_texts, read_texts, three_of, two_of, two_or_three_of};
ghost use Rattle.xet_arguments.specs.internal.Commands.{all_three, both, both_with, value_of};

use crate::commands::{bare_command, clean_command, make_command, pack_command, read_command};
use crate::parsing::matches_of_words;
use clap::ArgMatches;
use std::alloc::{AllocError, Global};

/// What a parse gives: none if the words are rejected. The only error is out of memory.
type Parsed<T> = Result<Option<T>, AllocError>;

/// The arguments of `pack`.
#[derive(Clone, Copy, PartialEq, Eq, Debug)]
pub struct PackArguments<'a> {
    /// Target chunk size in bytes.
    pub target: &'a str,
    /// Gear table: its name or the number of a seed.
    pub gear: &'a str,
    /// Number of workers, if it is given.
    pub workers: Option<&'a str>,
}

/// The arguments of `make`.
#[derive(Clone, Copy, PartialEq, Eq, Debug)]
pub struct MakeArguments<'a> {
    /// Seed of the generator.
    pub seed: &'a str,
    /// Length of the file in bytes.
    pub bytes: &'a str,
}

/// The arguments of `read`.
#[derive(Clone, Copy, PartialEq, Eq, Debug)]
pub struct ReadArguments<'a> {
    /// Hash of a file.
    pub hash: &'a str,
    /// Offset of the first byte.
    pub from: &'a str,
    /// Offset after the last byte.
    pub to: &'a str,
}

fn pack_values<'a>(found: &Option<ArgMatches<'a>>) -> Option<PackArguments<'a>>
    ensures { option_map pack_texts result
        ≡ both_with (value_of found.now (codes "target")) (value_of found.now (codes "gear"))
        (value_of found.now (codes "workers")) }
{
    let matches = found.as_ref()?;
    let target = matches.get_str("target")?;
    let gear = matches.get_str("gear")?;
    let workers = matches.get_str("workers");
    Some(PackArguments {
        target,
        gear,
        workers,
    })
}

/// `pack TARGET GEAR [WORKERS]`: the arguments; none if the number of words is neither 2 nor 3.
pub fn pack_arguments<'a>(alloc: Global, words: &'a [String]) -> Parsed<PackArguments<'a>>
    requires { list_any is_option (map string_bytes words.now) ≡ false }
    ensures { IfOk result (λ found. option_map pack_texts found ≡ two_or_three_of (map string_bytes words.now)) }
{
    let found = matches_of_words(pack_command(alloc)?, words)?;
    Ok(pack_values(&found))
}

fn make_values<'a>(found: &Option<ArgMatches<'a>>) -> Option<MakeArguments<'a>>
    ensures { option_map make_texts result
        ≡ both (value_of found.now (codes "seed")) (value_of found.now (codes "bytes")) }
{
    let matches = found.as_ref()?;
    let seed = matches.get_str("seed")?;
    let bytes = matches.get_str("bytes")?;
    Some(MakeArguments { seed, bytes })
}

/// `make SEED BYTES`: the arguments; none if the number of words is not 2.
pub fn make_arguments<'a>(alloc: Global, words: &'a [String]) -> Parsed<MakeArguments<'a>>
    requires { list_any is_option (map string_bytes words.now) ≡ false }
    ensures { IfOk result (λ found. option_map make_texts found ≡ two_of (map string_bytes words.now)) }
{
    let found = matches_of_words(make_command(alloc)?, words)?;
    Ok(make_values(&found))
}

fn read_values<'a>(found: &Option<ArgMatches<'a>>) -> Option<ReadArguments<'a>>
    ensures { option_map read_texts result
        ≡ all_three (value_of found.now (codes "hash")) (value_of found.now (codes "from"))
        (value_of found.now (codes "to")) }
{
    let matches = found.as_ref()?;
    let hash = matches.get_str("hash")?;
    let from = matches.get_str("from")?;
    let to = matches.get_str("to")?;
    Some(ReadArguments { hash, from, to })
}

/// `read HASH FROM TO`: the arguments; none if the number of words is not 3.
pub fn read_arguments<'a>(alloc: Global, words: &'a [String]) -> Parsed<ReadArguments<'a>>
    requires { list_any is_option (map string_bytes words.now) ≡ false }
    ensures { IfOk result (λ found. option_map read_texts found ≡ three_of (map string_bytes words.now)) }
{
    let found = matches_of_words(read_command(alloc)?, words)?;
    Ok(read_values(&found))
}

/// `clean NAME..`, whose names are the words: whether there are words.
pub fn some_arguments(alloc: Global, words: &[String]) -> Result<bool, AllocError>
    requires { list_any is_option (map string_bytes words.now) ≡ false }
    ensures { IfOk result (λ some. some ≡ nat_lt 0 (length words.now)) }
{
    note_count(words);
    let command = clean_command(alloc)?;
    let found = matches_of_words(command, words)?;
    match found {
        Some(_matches) => Ok(true),
        None => Ok(false),
    }
}

/// Proof aid without effect: the number of words is a `usize`.
fn note_count(words: &[String])
    ensures { length words.now ≤ usize_max }
{
    let _count = words.len();
}

/// A command without arguments, as `list` and `group`: whether there are no words.
pub fn no_arguments(alloc: Global, words: &[String]) -> Result<bool, AllocError>
    requires { list_any is_option (map string_bytes words.now) ≡ false }
    ensures { IfOk result (λ empty. empty ≡ (length words.now == 0)) }
{
    let command = bare_command(alloc, "list");
    let found = matches_of_words(command, words)?;
    match found {
        Some(_matches) => Ok(true),
        None => Ok(false),
    }
}
