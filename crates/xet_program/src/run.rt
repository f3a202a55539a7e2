//! The program as one call, over any input, output, disk and inputs.

ghost use Rattle.std.specs.Prelude.{◌≡◌, ◌≢◌, ◌⊎◌, ◌<◌, ◌^◌, true, None, Some, [], map, string_bytes, IsErrOf, OnOk};
ghost use Rattle.xet_io.specs.Frame.{Called, Queried};
ghost use Rattle.xet_program.specs.internal.Answered.{Answered};
ghost use Rattle.xet_program.specs.Run.{Run};
ghost use Rattle.xet_program.specs.Start.{OpensInputs, ReadsInput, start};
ghost use Rattle.xet_program.specs.internal.Stops.{answer_outcome};
ghost use Rattle.xet_program.specs.Words.{command_of};
ghost use Rattle.xet_program.specs.internal.Asked.{AllowsInput, asked};

use crate::clean::clean;
use crate::ending::{Ending, Stop};
use crate::group::group;
use crate::list::list;
use crate::make::make;
use crate::pack::pack;
use crate::read::read;
use crate::words::{Command, command_of};
use std::alloc::Global;
use std::marker::{Send, Sync};
use std::sync::Wait;
use std::thread::Threads;
use xet_folder::laws::admitted_later;
use xet_io::{Disk, Inputs, Sink, Source};

/// Runs the command of the arguments `words`: reads `input` or the files of `inputs`, works on `disk`, prints to
/// `output`, and returns the disk and the status. `now` is the time in seconds since 1970. Cleaning starts threads by
/// `rt`, those of the workers of `pack` and for the SHA-256 of large blocks; no clause depends on how many there are.
///
/// | Status | Meaning |
/// |---|---|
/// | 0 | the answer was printed; the input was read to its end, and files were stored, where the command does so |
/// | 1 | out of memory; also if digests collide |
/// | 2 | invalid arguments, and only then; these may also end with 1 |
/// | 3 | the input has a bad line; prints `bad line n` for the first, counted from 1 |
/// | 4, 5, 6 | the input or a file, the output, or the disk failed in this call |
/// | 7 | the folder `store` is not valid; prints `bad shard NAME` for the first shard that fails a check |
/// | 8 | there is no such range, no such file, or no such name |
/// | 9 | the input is longer than 2^31 bytes, or a file is longer than a source may be; or the folder has more unexpired shards than can be registered, 2^32 - 1; or, of `pack`, `clean` and `make`, at least as many at the end |
/// | 10 | a stored xorb changed after it was verified, which needs a disk that is not observable; or chunks of the files and of stored xorbs collide |
///
/// A status but 1, 4, 5, 6, 10 and the 9 for the number of shards is returned only if it is due, and of several that
/// apply the first is due, in the order of the command's tests: `pack` 2, 9, 3, 8, 7; `clean` 2, 7, 8, 9; `make` 2, 7;
/// `read` 2, 7, 8; `list` 2, 7; `group` 2, 9. A folder that has too many shards gives 9 in place of an answer; one that
/// is full gives it to `pack`, `clean` and `make` alone, once the folder was opened and no name is absent. The run may
/// be stopped with 1 before it prints and, if another status than 2 is due, with 4 or 6, and has then printed nothing.
/// An answer is printed once it is complete, and once files are stored and, except by `make`, recorded. A text may be
/// cut short after a prefix of it, with 5, or with 1 if the output has no memory. No other status is returned, and 2,
/// 4, 6, 8, 9 and 10 print nothing, also if inputs and disk are not observable. Clauses about contents apply to inputs,
/// outputs and disks that are observable.
pub fn run_program<I, O, D, F, R>(
    alloc: Global,
    rt: &R,
    words: &[String],
    input: &mut I,
    output: &mut O,
    disk: D,
    inputs: &mut F,
    now: u64,
) -> (D, u8)
where
    I: Source,
    O: Sink,
    D: Disk + Send,
    F: Inputs,
    R: Threads + Wait + Sync,
    ensures runs { Run (command_of (map string_bytes words.now)) (start (I.tells input.old) (I.left input.old) (F.tells inputs.old) (F.files inputs.old) now (D.tells disk) (D.files disk))
        (O.tells output.old) (O.written output.old) (O.written output.new) (D.files result.0) result.1 }
    ensures read { I.tells input.old ≡ true → ReadsInput (command_of (map string_bytes words.now)) → result.1 ≡ 0 → I.left input.new ≡ [] }
    ensures input { Called I.tells I.faults input.old input.new ((result.1 ≡ 4) × ReadsInput (command_of (map string_bytes words.now))) }
    ensures unread { (ReadsInput (command_of (map string_bytes words.now)) → ⊥) → input.new ≡ input.old }
    ensures output { Called O.tells O.faults output.old output.new (result.1 ≡ 5) }
    ensures disk { Called D.tells D.faults disk result.0 (result.1 ≡ 6) }
    ensures inputs { Queried F.files F.tells F.faults inputs.old inputs.new ((result.1 ≡ 4) × OpensInputs (command_of (map string_bytes words.now))) }
    ensures unopened { (OpensInputs (command_of (map string_bytes words.now)) → ⊥) → inputs.new ≡ inputs.old }
    ensures closed { F.opened inputs.old < 2 ^ 63 → F.opened inputs.new ≡ F.opened inputs.old }
{
    let (disk, ending) = run_command(rt, alloc, words, input, disk, inputs, now);
    admitted_later();
    let status = ending.print(output);
    (disk, status)
}

/// Runs the command of the arguments up to its text, which is not printed yet.
fn run_command<I: Source, D: Disk + Send, F: Inputs, R: Threads + Wait + Sync>(
    rt: &R,
    alloc: Global,
    words: &[String],
    input: &mut I,
    disk: D,
    inputs: &mut F,
    now: u64,
) -> (D, Ending)
    ensures invalid { result.1.status ≡ 2 → command_of (map string_bytes words.now) ≡ None }
    ensures words { command_of (map string_bytes words.now) ≡ None → (result.1.status ≡ 2) ⊎ (result.1.status ≡ 1) }
    ensures silent { command_of (map string_bytes words.now) ≡ None → result.1.text ≡ [] }
    ensures answered { Answered (command_of (map string_bytes words.now)) (start (I.tells input.old) (I.left input.old) (F.tells inputs.old) (F.files inputs.old) now (D.tells disk) (D.files disk)) (D.files result.0) result.1 }
    ensures read { I.tells input.old ≡ true → ReadsInput (command_of (map string_bytes words.now)) → result.1.status ≡ 0 → I.left input.new ≡ [] }
    ensures input { Called I.tells I.faults input.old input.new ((result.1.status ≡ 4) × ReadsInput (command_of (map string_bytes words.now))) }
    ensures unread { (ReadsInput (command_of (map string_bytes words.now)) → ⊥) → input.new ≡ input.old }
    ensures output { result.1.status ≢ 5 }
    ensures disk { Called D.tells D.faults disk result.0 (result.1.status ≡ 6) }
    ensures inputs { Queried F.files F.tells F.faults inputs.old inputs.new ((result.1.status ≡ 4) × OpensInputs (command_of (map string_bytes words.now))) }
    ensures unopened { (OpensInputs (command_of (map string_bytes words.now)) → ⊥) → inputs.new ≡ inputs.old }
    ensures closed { F.opened inputs.old < 2 ^ 63 → F.opened inputs.new ≡ F.opened inputs.old }
{
    match command_of(alloc, words) {
        Err(_) => (disk, Ending::of_no_memory(alloc)),
        Ok(None) => (disk, Ending::of_bad_words(alloc)),
        Ok(Some(command)) => {
            let (disk, answer) = answer(rt, alloc, &command, input, disk, inputs, now);
            (disk, Ending::of_answer(alloc, answer))
        }
    }
}

/// Runs a command, and returns the disk and the answer, or why it stops.
fn answer<I: Source, D: Disk + Send, F: Inputs, R: Threads + Wait + Sync>(
    rt: &R,
    alloc: Global,
    command: &Command<'_>,
    input: &mut I,
    disk: D,
    inputs: &mut F,
    now: u64,
) -> (D, Result<Vec<u8>, Stop>)
    requires { AllowsInput (asked command.now) }
    ensures answered { Answered (Some (asked command.now)) (start (I.tells input.old) (I.left input.old) (F.tells inputs.old) (F.files inputs.old) now (D.tells disk) (D.files disk)) (D.files result.0) (answer_outcome result.1) }
    ensures read { I.tells input.old ≡ true → ReadsInput (Some (asked command.now)) → OnOk result.1 (I.left input.new ≡ []) }
    ensures input { Called I.tells I.faults input.old input.new (IsErrOf result.1 Stop.Input × ReadsInput (Some (asked command.now))) }
    ensures unread { (ReadsInput (Some (asked command.now)) → ⊥) → input.new ≡ input.old }
    ensures disk { Called D.tells D.faults disk result.0 (IsErrOf result.1 Stop.Disk) }
    ensures inputs { Queried F.files F.tells F.faults inputs.old inputs.new (IsErrOf result.1 Stop.Input × OpensInputs (Some (asked command.now))) }
    ensures unopened { (OpensInputs (Some (asked command.now)) → ⊥) → inputs.new ≡ inputs.old }
    ensures closed { F.opened inputs.old < 2 ^ 63 → F.opened inputs.new ≡ F.opened inputs.old }
{
    match command {
        Command::Pack(limits, workers) => pack(rt, alloc, limits, *workers, input, disk, now),
        Command::Clean(names) => clean(rt, alloc, names, disk, inputs, now),
        Command::Make(seed, bytes) => make(rt, alloc, *seed, *bytes, disk, now),
        Command::Read(hash, from, to) => read(alloc, hash, *from, *to, disk, now),
        Command::ListFiles => list(alloc, disk, now),
        Command::Group => (disk, group(alloc, input)),
    }
}
