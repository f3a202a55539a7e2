//! The commands, as `clap` parses them.

ghost use Rattle.std.specs.Prelude.{◌≡◌, IfOk, false};
ghost use Rattle.clap.specs.Words.{app_of, rule_of};
ghost use Rattle.xet_arguments.specs.internal.Commands.{bare, clean_app, make_app, needed, pack_app, read_app};

use clap::{Arg, Command};
use std::alloc::{AllocError, Global};

/// A command without arguments, help flag and help command. Its first word is an argument.
pub(crate) fn bare_command<'a>(alloc: Global, name: &'a str) -> Command<'a>
    ensures { app_of result ≡ bare name.now }
{
    Command::new(alloc, name)
        .no_binary_name(true)
        .disable_help_flag(true)
        .disable_help_subcommand(true)
}

/// A required positional argument.
fn required_argument<'a>(alloc: Global, name: &'a str) -> Arg<'a>
    ensures rule { rule_of result ≡ needed name.now }
    ensures local { result.global ≡ false }
{
    Arg::new(alloc, name).required(true)
}

/// `pack TARGET GEAR [WORKERS]`
pub(crate) fn pack_command<'a>(alloc: Global) -> Result<Command<'a>, AllocError>
    ensures { IfOk result (λ command. app_of command ≡ pack_app) }
{
    let target = required_argument(alloc, "target");
    let gear = required_argument(alloc, "gear");
    let workers = Arg::new(alloc, "workers");
    bare_command(alloc, "pack")
        .arg(target)?
        .arg(gear)?
        .arg(workers)
}

/// `make SEED BYTES`
pub(crate) fn make_command<'a>(alloc: Global) -> Result<Command<'a>, AllocError>
    ensures { IfOk result (λ command. app_of command ≡ make_app) }
{
    let seed = required_argument(alloc, "seed");
    let bytes = required_argument(alloc, "bytes");
    bare_command(alloc, "make").arg(seed)?.arg(bytes)
}

/// `read HASH FROM TO`
pub(crate) fn read_command<'a>(alloc: Global) -> Result<Command<'a>, AllocError>
    ensures { IfOk result (λ command. app_of command ≡ read_app) }
{
    let hash = required_argument(alloc, "hash");
    let from = required_argument(alloc, "from");
    let to = required_argument(alloc, "to");
    bare_command(alloc, "read").arg(hash)?.arg(from)?.arg(to)
}

/// `clean NAME..`
pub(crate) fn clean_command<'a>(alloc: Global) -> Result<Command<'a>, AllocError>
    ensures { IfOk result (λ command. app_of command ≡ clean_app) }
{
    let name = required_argument(alloc, "name").num_args(1..);
    bare_command(alloc, "clean").arg(name)
}
