//! The report of files that were stored: a line for each, and the bytes of ranges of them.

ghost use Rattle.std.specs.Prelude.{◌≡◌, ◌++◌, IfOk, OnOk, IsOkUnless};
ghost use Rattle.std.specs.List.{flat_map};
ghost use Rattle.xet_program.specs.Report.{bytes_line};
ghost use Rattle.xet_program.specs.internal.Report.{info_line};

use crate::ending::Stop;
use std::alloc::Global;
use xet_store_disk::XetFileInfo;

/// The line of each file, in order. The only error is `OutOfMemory`.
pub fn report(alloc: Global, infos: &[XetFileInfo]) -> Result<Vec<u8>, Stop>
    ensures text { IfOk result (λ text. text.items ≡ flat_map info_line infos.now) }
    ensures memory { IsOkUnless result Stop.OutOfMemory }
{
    let mut text = Vec::new(alloc);
    for info in infos {
        push_info_line(alloc, info, &mut text)?;
    }
    Ok(text)
}

/// Appends the line of a file: its hash, its length and its SHA-256, if it has one.
fn push_info_line(alloc: Global, info: &XetFileInfo, text: &mut Vec<u8>) -> Result<(), Stop>
    ensures line { OnOk result (text.new.items ≡ text.old.items ++ info_line info.now) }
    ensures memory { IsOkUnless result Stop.OutOfMemory }
{
    let hash = info.hash.hex(alloc)?;
    let length = info.file_size;
    let sha256 = match &info.sha256 {
        Some(sha256) => hex::encode(alloc, sha256.as_bytes().as_slice())?,
        None => String::new(alloc),
    };
    let line = format!(in alloc; "{hash} {length} {sha256}\n")?;
    text.extend_from_slice(line.as_bytes())?;
    Ok(())
}

/// Appends the line of some bytes: lower-case hexadecimal. The only error is `OutOfMemory`.
pub fn push_bytes_line(bytes: &[u8], text: &mut Vec<u8>) -> Result<(), Stop>
    ensures line { OnOk result (text.new.items ≡ text.old.items ++ bytes_line bytes.now) }
    ensures memory { IsOkUnless result Stop.OutOfMemory }
{
    let start = text.len();
    let Some(end) = start.checked_add(2 * bytes.len()) else {
        return Err(Stop::OutOfMemory);
    };
    text.resize(end, b'0')?;
    match hex::encode_to_slice(bytes, &mut text[start..]) {
        Ok(()) => Ok(text.push(b'\n')?),
        Err(_) => unreachable!(),
    }
}
