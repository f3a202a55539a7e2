//! A parse by `clap`, which fails only if memory runs out.

ghost use Rattle.std.specs.Prelude.{◌≡◌, IfOk, MatchOption, [], map, string_bytes, true};
ghost use Rattle.clap.specs.Words.{app_of, fault_of, found_of, is_simple_and_free, kind_of, matches_of, rows_of};
ghost use Rattle.xet_arguments.specs.internal.Commands.{HasFault};

use clap::error::ErrorKind;
use clap::{ArgMatches, Command, Error};
use std::alloc::AllocError;

/// The matches of a command; none if it rejects the words.
pub(crate) fn matches_of_words<'a>(
    command: Command<'a>,
    words: &'a [String],
) -> Result<Option<ArgMatches<'a>>, AllocError>
    requires { is_simple_and_free (app_of command) ≡ true }
    ensures { IfOk result (λ found. MatchOption found
        (HasFault (fault_of (app_of command.entry) (map string_bytes words.now)))
        (λ matches. (fault_of (app_of command.entry) (map string_bytes words.now) ≡ [])
        × (rows_of (found_of matches) ≡ matches_of (app_of command.entry) (map string_bytes words.now)))) }
{
    match command.try_get_matches_from(words) {
        Ok(matches) => Ok(Some(matches)),
        Err(error) => {
            rejects_words(error)?;
            Ok(None)
        }
    }
}

/// Whether the words were rejected. The only other error is out of memory.
fn rejects_words(error: Error) -> Result<(), AllocError>
    ensures { IfOk result (λ _. kind_of error ≡ ErrorKind.OutOfMemory → ⊥) }
{
    if error.kind() == ErrorKind::OutOfMemory {
        Err(AllocError)
    } else {
        Ok(())
    }
}
