//! The names of a real folder: which stay in it, and the paths that they stand for.

ghost use Rattle.std.specs.Prelude.{◌≡◌};
ghost use Rattle.xet_fs.specs.FolderNames.{has_no_nul, is_part, is_reserved, stays_inside};

use std::alloc::{AllocError, Global};

/// Whether a name stays in its folder: no part between slashes is empty, `.` or `..`, and no byte is NUL.
pub(crate) fn stays_inside(name: &str) -> bool
    ensures { result ≡ stays_inside name.now }
{
    name.split('/').all(|part| is_part(part))
}

/// Whether this can be the name of a file or a folder.
fn is_part(part: &str) -> bool
    ensures { result ≡ is_part part.now }
{
    !is_reserved(part) && has_no_nul(part)
}

/// Whether this stands for another folder, or for none.
fn is_reserved(part: &str) -> bool
    ensures { result ≡ is_reserved part.now }
{
    part.is_empty() || part == "." || part == ".."
}

fn has_no_nul(part: &str) -> bool
    ensures { result ≡ has_no_nul part.now }
{
    part.bytes().all(|b| b != 0)
}

/// The path of a name in a folder. An empty folder is the current one.
pub(crate) fn path_in(alloc: Global, folder: &str, name: &str) -> Result<String, AllocError> {
    let mut path = String::from_str(alloc, folder)?;
    push_part(&mut path, name)?;
    Ok(path)
}

/// The path of a folder. An empty folder is the current one.
pub(crate) fn folder_path(folder: &str) -> &str {
    match folder {
        "" => ".",
        _ => folder,
    }
}

/// Extends the path of a folder to that of a name in it.
pub(crate) fn push_part(path: &mut String, name: &str) -> Result<(), AllocError> {
    if !path.is_empty() {
        path.push('/')?;
    }
    path.push_str(name)
}

/// The path of the folder that holds the file or folder at this path.
pub(crate) fn holder(path: &str) -> &str {
    match path.rsplit_once('/') {
        Some((folder, _)) => folder,
        None => ".",
    }
}
