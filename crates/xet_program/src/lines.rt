//! Parsing of the lines of an input.

ghost use Rattle.std.specs.Prelude.{◌≡◌, ◌<◌, ◌∷◌, [], length, IfErr, IfOk, IfNone, IfSome, OnOk, IsOkUnless, MatchBool, None, Some, IsTrue, ◌↔◌};
ghost use Rattle.std.specs.Option.{option_map};
ghost use Rattle.std.specs.Str.Lines.{lines, strip_carriage_return};
ghost use Rattle.xet_program.specs.Lines.{file_bytes, first_bad, good_lines, range_by, range_of, words_of};
ghost use Rattle.xet_program.specs.internal.Stops.{IsStop, parsing_causes};
ghost use Rattle.xet_program.specs.internal.Parsing.{parted, with_next};
ghost use Rattle.xet_program.specs.Words.{number_of};

use crate::ending::Stop;
use crate::words::number_in;
use hex::FromHexError;
use memchr::memchr;
use std::alloc::Global;
use std::marker::Model;

/// The maximum number of file lines.
const MAX_FILES: usize = 1 << 20;

/// A range of the bytes of one of an input's files.
#[derive(Clone, Copy, PartialEq, Eq, Debug)]
pub struct FileRange {
    /// The number of the file's line among the file lines, counted from 1.
    pub file: u64,
    /// The offset of the first byte.
    pub from: u64,
    /// The offset after the last byte.
    pub to: u64,
}

/// What the lines of an input say. Contracts see the files and the ranges, each in order.
#[derive(Debug, Drop)]
pub struct PackLines {
    files: Vec<Vec<u8>>,
    ranges: Vec<FileRange>,
}

impl Model for PackLines {
    ghost use Rattle.std.specs.Prelude.{map};
    ghost use Rattle.xet_program.specs.internal.Parsing.{Said};

    ghost Value = { Said };

    ghost view = { λ p. record { files = map (λ f. f.items) p.files.items; ranges = p.ranges.items } };
}

impl PackLines {
    ghost use Rattle.std.specs.Prelude.{◌≡◌, ℕ, [], map, is_some, IfOk, IsOkUnless, MatchBool, None, Some};
    ghost use Rattle.xet_program.specs.Lines.{range_bytes};
    ghost use Rattle.xet_program.specs.internal.Parsing.{and_file, are_good, parted, with_next};

    fn new(alloc: Global) -> PackLines
        ensures { result ≡ parted [] }
    {
        PackLines {
            files: Vec::new(alloc),
            ranges: Vec::new(alloc),
        }
    }

    /// The bytes of each file line, in order.
    pub fn files(&self) -> &[Vec<u8>]
        ensures { map (λ f. f.items) result.now ≡ self.now.files }
    {
        &self.files
    }

    /// The range of each range line, in order.
    pub fn ranges(&self) -> &[FileRange]
        ensures { result.now ≡ self.now.ranges }
    {
        &self.ranges
    }

    /// Whether each range names bytes of the files.
    pub fn are_good(&self) -> bool
        ensures { result ≡ are_good self.now }
    {
        self.ranges.iter().all(|range| self.has(range))
    }

    /// Whether a range has the number of a file, is not reversed, and does not pass the file's end.
    fn has(&self, range: &FileRange) -> bool
        ensures { result ≡ is_some (range_bytes self.now.files range.now) }
    {
        if range.file == 0 || range.file > self.files.len() as u64 {
            return false;
        }
        let size = self.files[(range.file - 1) as usize].len() as u64;
        range.from <= range.to && range.to <= size
    }

    /// Adds what one more line says. Returns false if the line is bad. The only error is `OutOfMemory`.
    fn push(&mut self, alloc: Global, line: &[u8]) -> Result<bool, Stop>
        ensures good { IfOk result (λ good. MatchBool good (with_next self.old line.now ≡ Some self.new) (with_next self.old line.now ≡ None)) }
        ensures memory { IsOkUnless result Stop.OutOfMemory }
    {
        if line.is_empty() {
            return Ok(true);
        }
        if let Some(bytes) = file_bytes(alloc, line)? {
            return self.push_file(bytes);
        }
        match range_of(line) {
            Some(range) => {
                self.ranges.push(range)?;
                Ok(true)
            }
            None => Ok(false),
        }
    }

    /// Adds a file. Returns false if there are too many.
    fn push_file(&mut self, bytes: Vec<u8>) -> Result<bool, Stop>
        ensures good { IfOk result (λ good. MatchBool good (and_file self.old bytes.items ≡ Some self.new) (and_file self.old bytes.items ≡ None)) }
        ensures memory { IsOkUnless result Stop.OutOfMemory }
    {
        if self.files.len() >= MAX_FILES {
            return Ok(false);
        }
        self.files.push(bytes)?;
        Ok(true)
    }
}

/// Parses the lines of an input. The error is `BadLine` with the number of the first bad line, counted from
/// 1, or `OutOfMemory`.
pub fn parse(alloc: Global, input: &[u8]) -> Result<PackLines, Stop>
    ensures good { OnOk result (first_bad (lines input.now) ≡ None) }
    ensures said { IfOk result (λ said. option_map parted (good_lines (lines input.now)) ≡ Some said) }
    ensures stop { IfErr result (IsStop (parsing_causes (lines input.now))) }
{
    let mut said = PackLines::new(alloc);
    let mut number = 0u64;
    let mut rest = input;
    'lines: while !rest.is_empty() {
        let (line, tail) = first_line(rest);
        number += 1;
        if !said.push(alloc, line)? {
            return Err(Stop::BadLine(number));
        }
        rest = tail;
    }
    Ok(said)
}

/// The first line of some bytes, without its end, and the bytes after it.
fn first_line(bytes: &[u8]) -> (&[u8], &[u8])
    requires { 0 < length bytes.now }
    ensures line { lines bytes.now ≡ result.0.now ∷ lines result.1.now }
    ensures shorter { length result.1.now < length bytes.now }
{
    match memchr(b'\n', bytes) {
        Some(end) => (without_return(&bytes[..end]), &bytes[end + 1..]),
        None => (bytes, &bytes[bytes.len()..]),
    }
}

/// A line without the CR at its end, if there is one. A second CR stays.
fn without_return(line: &[u8]) -> &[u8]
    ensures { result.now ≡ strip_carriage_return line.now }
{
    match line {
        [prefix @ .., b'\r'] => prefix,
        _ => line,
    }
}

/// The bytes of a file line; none if the line is not one. The only error is `OutOfMemory`.
fn file_bytes(alloc: Global, line: &[u8]) -> Result<Option<Vec<u8>>, Stop>
    ensures bytes { IfOk result (λ found. option_map (λ bytes. bytes.items) found ≡ file_bytes line.now) }
    ensures memory { IsOkUnless result Stop.OutOfMemory }
{
    if line == b"file".as_slice() {
        return Ok(Some(Vec::new(alloc)));
    }
    let Some(digits) = line.strip_prefix(b"file ") else {
        return Ok(None);
    };
    match hex::decode(alloc, digits) {
        Ok(bytes) => Ok(Some(bytes)),
        Err(error) => {
            if is_out_of_memory(&error) {
                Err(Stop::OutOfMemory)
            } else {
                Ok(None)
            }
        }
    }
}

/// The range of a range line; none if the line is not one.
fn range_of(line: &[u8]) -> Option<FileRange>
    ensures { result ≡ range_of (words_of line.now) }
{
    let (name, numbers) = first_word(line)?;
    if name != b"range".as_slice() {
        return None;
    }
    let (file, places) = first_word(numbers)?;
    let (from, to) = first_word(places)?;
    range_by(file, from, to)
}

/// The range of three numbers; none if one of the words is not a number.
fn range_by(file: &[u8], from: &[u8], to: &[u8]) -> Option<FileRange>
    ensures { result ≡ range_by (number_of file.now) (number_of from.now) (number_of to.now) }
{
    Some(FileRange {
        file: number_in(file)?,
        from: number_in(from)?,
        to: number_in(to)?,
    })
}

/// The word before the first space, and the bytes after that; none if there is no space.
fn first_word(line: &[u8]) -> Option<(&[u8], &[u8])>
    ensures found { IfSome result (λ found. words_of line.now ≡ found.0.now ∷ words_of found.1.now) }
    ensures none { IfNone result (words_of line.now ≡ line.now ∷ []) }
{
    let end = memchr(b' ', line)?;
    Some((&line[..end], &line[end + 1..]))
}

fn is_out_of_memory(error: &FromHexError) -> bool
    ensures { IsTrue result ↔ (error.now ≡ FromHexError.OutOfMemory) }
{
    matches!(error, FromHexError::OutOfMemory)
}
