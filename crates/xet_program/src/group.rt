//! The command `group`.

ghost use Rattle.std.specs.Prelude.{◌≡◌, ◌≤◌, List, ℕ, true, [], length, IfErr, IfOk, OnOk, IsErrOf};
ghost use Rattle.xet_group.specs.Groups.{grouped};
ghost use Rattle.xet_io.specs.Frame.{Called};
ghost use Rattle.xet_program.specs.Early.{max_input};
ghost use Rattle.xet_program.specs.internal.Stops.{IsStop, grouping_causes};

use crate::ending::Stop;
use crate::pack::{MAX_INPUT, MAX_READ};
use std::alloc::Global;
use xet_group::bg4_split;
use xet_io::{Source, read_all};

/// Reads an input to its end, and returns its bytes in four groups, or why it stops.
pub fn group<I: Source>(alloc: Global, input: &mut I) -> Result<Vec<u8>, Stop>
    ensures text { IfOk result (λ text. (bytes : List ℕ) × (I.tells input.old ≡ true → bytes ≡ I.left input.old) × (length bytes ≤ max_input) × (text.items ≡ grouped bytes)) }
    ensures stop { IfErr result (IsStop (grouping_causes (I.tells input.old) (I.left input.old))) }
    ensures read { I.tells input.old ≡ true → OnOk result (I.left input.new ≡ []) }
    ensures frame { Called I.tells I.faults input.old input.new (IsErrOf result Stop.Input) }
{
    let bytes = read_all(alloc, input, MAX_READ, MAX_INPUT)?;
    Ok(bg4_split(alloc, &bytes)?)
}
