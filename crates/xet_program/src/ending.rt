//! How a command ends: the status and the text.

ghost use Rattle.std.specs.Prelude.{◌≡◌, ◌⊎◌, [], IfOk};
ghost use Rattle.xet_program.specs.Early.{bad_line_text, outcome};
ghost use Rattle.xet_program.specs.Ending.{bad_shard_text, Prints};
ghost use Rattle.xet_program.specs.internal.Stops.{answer_outcome, stop_of_error, stop_of_unread};
ghost use Rattle.xet_io.specs.Frame.{Called};

use std::alloc::{AllocError, AllocFailed, Global};
use std::marker::Model;
use xet_base::Text;
use xet_hash::{Place, StoreError};
use xet_io::{Refusal, Sink, Unread, write_all};

/// Why a command stops without an answer.
#[derive(Debug, Drop)]
pub enum Stop {
    /// Out of memory.
    OutOfMemory,
    /// Reading the input or a file failed.
    Input,
    /// The input or a file is too long, or the folder is full.
    TooLarge,
    /// The number, counted from 1, of the first bad line.
    BadLine(u64),
    /// There is no such range, file or name.
    NotFound,
    /// The disk failed.
    Disk,
    /// The file name of the first shard that fails a check.
    BadShard(Text),
    /// A stored xorb changed after it was verified, or there are collisions.
    Malformed,
}

impl From<Unread> for Stop {
    ghost from_gives = { λ unread e. e ≡ stop_of_unread unread };

    fn from(unread: Unread) -> Stop {
        match unread {
            Unread::OutOfMemory => Stop::OutOfMemory,
            Unread::Failed => Stop::Input,
            Unread::TooLong => Stop::TooLarge,
        }
    }
}

impl From<StoreError> for Stop {
    ghost from_gives = { λ error e. e ≡ stop_of_error error };

    fn from(error: StoreError) -> Stop {
        match error {
            StoreError::Io(Place::Source(_)) => Stop::Input,
            StoreError::Io(_) => Stop::Disk,
            StoreError::TooLarge(_) => Stop::TooLarge,
            StoreError::MalformedData(_)
            | StoreError::UnexpectedEof
            | StoreError::ChunkHeaderParse
            | StoreError::HashMismatch
            | StoreError::CompressionError(_)
            | StoreError::InvalidShard(_, _) => Stop::Malformed,
            StoreError::OutOfMemory => Stop::OutOfMemory,
            // These two can occur only if digests collide.
            StoreError::FileNotFound | StoreError::InvalidRange => Stop::OutOfMemory,
            // No call of the program returns these.
            StoreError::InvalidArguments
            | StoreError::TruncatedHashCollision
            | StoreError::BadFilename
            | StoreError::BadLimits(_) => Stop::OutOfMemory,
        }
    }
}

impl From<AllocError> for Stop {
    ghost use Rattle.std.specs.Prelude.{◌≡◌};
    ghost use Rattle.xet_program.specs.declared.ending.Stop.TheVariants.{OutOfMemory};

    ghost from_gives = { λ _ e. e ≡ OutOfMemory };

    fn from(_: AllocError) -> Stop {
        Stop::OutOfMemory
    }
}

impl<T: Drop> From<AllocFailed<T>> for Stop {
    ghost use Rattle.std.specs.Prelude.{◌≡◌};
    ghost use Rattle.xet_program.specs.declared.ending.Stop.TheVariants.{OutOfMemory};

    ghost from_gives = { λ _ e. e ≡ OutOfMemory };

    fn from(_: AllocFailed<T>) -> Stop {
        Stop::OutOfMemory
    }
}

/// The status if the answer was printed.
const DONE: u8 = 0;

/// The status if memory is out.
const OUT_OF_MEMORY: u8 = 1;

/// The status if the arguments are invalid.
const BAD_WORDS: u8 = 2;

/// The status if the input has a bad line.
const BAD_LINE: u8 = 3;

/// The status if reading the input or a file failed.
const INPUT_FAILED: u8 = 4;

/// The status if writing the output failed.
const OUTPUT_FAILED: u8 = 5;

/// The status if the disk failed.
const DISK_FAILED: u8 = 6;

/// The status if the folder is not valid.
const BAD_SHARD: u8 = 7;

/// The status if there is no such range, file or name.
const NOT_FOUND: u8 = 8;

/// The status if the input or a file is too long, or the folder is full.
const TOO_LARGE: u8 = 9;

/// The status if a stored xorb changed after it was verified, or there are collisions.
const MALFORMED: u8 = 10;

/// How a command ends: its status and the text that is to be printed. Contracts see both.
#[derive(Drop)]
pub struct Ending {
    status: u8,
    text: Vec<u8>,
}

impl Model for Ending {
    ghost use Rattle.xet_program.specs.Early.{Outcome, outcome};

    ghost Value = { Outcome };

    ghost view = { λ e. outcome e.status e.text.items };
}

impl Ending {
    ghost use Rattle.std.specs.Prelude.{◌≡◌, ◌≢◌, ◌⊎◌, [], true, IfOk, OnErr};
    ghost use Rattle.xet_program.specs.Early.{outcome};
    ghost use Rattle.xet_program.specs.Ending.{Prints};
    ghost use Rattle.xet_program.specs.internal.Stops.{answer_outcome};
    ghost use Rattle.xet_io.specs.Frame.{Called};

    /// The ending for invalid arguments.
    pub fn of_bad_words(alloc: Global) -> Ending
        ensures { result ≡ outcome 2 [] }
    {
        Ending::silent(alloc, BAD_WORDS)
    }

    /// The ending if memory is out before the command is known.
    pub fn of_no_memory(alloc: Global) -> Ending
        ensures { result ≡ outcome 1 [] }
    {
        Ending::silent(alloc, OUT_OF_MEMORY)
    }

    /// The ending for the result of a command, or the one for out of memory if the text cannot be allocated.
    pub fn of_answer(alloc: Global, answer: Result<Vec<u8>, Stop>) -> Ending
        ensures ends { (result ≡ answer_outcome answer) ⊎ (result ≡ outcome 1 []) }
        ensures report { IfOk answer (λ text. result ≡ outcome 0 text.items) }
    {
        match answer {
            Ok(text) => Ending { status: DONE, text },
            Err(Stop::OutOfMemory) => Ending::silent(alloc, OUT_OF_MEMORY),
            Err(Stop::Input) => Ending::silent(alloc, INPUT_FAILED),
            Err(Stop::NotFound) => Ending::silent(alloc, NOT_FOUND),
            Err(Stop::TooLarge) => Ending::silent(alloc, TOO_LARGE),
            Err(Stop::Malformed) => Ending::silent(alloc, MALFORMED),
            Err(Stop::Disk) => Ending::silent(alloc, DISK_FAILED),
            Err(Stop::BadLine(number)) => {
                Ending::told(alloc, BAD_LINE, bad_line_text(alloc, number))
            }
            Err(Stop::BadShard(name)) => {
                Ending::told(alloc, BAD_SHARD, bad_shard_text(alloc, name.as_str()))
            }
        }
    }

    /// The ending with this status and text, or the one for out of memory if the text could not be allocated.
    fn told(alloc: Global, status: u8, text: Result<Vec<u8>, AllocError>) -> Ending
        ensures told { IfOk text (λ text. result ≡ outcome status text.items) }
        ensures memory { OnErr text (result ≡ outcome 1 []) }
    {
        match text {
            Ok(text) => Ending { status, text },
            Err(_) => Ending::silent(alloc, OUT_OF_MEMORY),
        }
    }

    /// The ending with this status and no text.
    fn silent(alloc: Global, status: u8) -> Ending
        ensures { result ≡ outcome status [] }
    {
        Ending {
            status,
            text: Vec::new(alloc),
        }
    }

    /// Prints the text and returns the status: that of the ending, or 5 if the output failed, or 1 if it ran
    /// out of memory.
    pub fn print<O: Sink>(&self, output: &mut O) -> u8
        ensures prints { Prints (O.tells output.old) self.now (O.written output.old) (O.written output.new) result }
        ensures status { (result ≡ self.now.status) ⊎ (result ≡ 1) ⊎ (result ≡ 5) }
        ensures silent { self.now.text ≡ [] → result ≡ self.now.status }
        ensures frame { Called O.tells O.faults output.old output.new ((result ≡ 5) × (self.now.status ≢ 5)) }
    {
        match write_all(output, &self.text) {
            Ok(()) => self.status,
            Err(Refusal::OutOfMemory) => OUT_OF_MEMORY,
            Err(Refusal::Failed) => OUTPUT_FAILED,
        }
    }
}

fn bad_line_text(alloc: Global, number: u64) -> Result<Vec<u8>, AllocError>
    ensures { IfOk result (λ text. text.items ≡ bad_line_text number) }
{
    let text = format!(in alloc; "bad line {number}\n")?;
    Ok(text.into_bytes())
}

fn bad_shard_text(alloc: Global, name: &str) -> Result<Vec<u8>, AllocError>
    ensures { IfOk result (λ text. text.items ≡ bad_shard_text name.now) }
{
    let text = format!(in alloc; "bad shard {name}\n")?;
    Ok(text.into_bytes())
}
