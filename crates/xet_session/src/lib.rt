//! Sessions: files are cleaned into an open store, by one caller or by workers that share it under a lock.
//!
//! [`clean_files`] takes a session and many sources. It reads each source to its end, splits it into chunks, stores those for which
//! a query finds no run that may be used, and records each file's plan. Chunks that still wait for their xorb are not found, so a
//! chunk may be stored twice. The records are pending until the session is flushed:
//!
//! ```text
//! let mut sources = [SliceSource::new(b"one"), SliceSource::new(b"two")];
//! let (mut session, cleaned) = clean_files(rt, alloc, session, &mut sources, 4);
//! let Cleaned { infos, .. } = cleaned?;           // hash, length and SHA-256 of each source, in their order
//! session.flush()?;
//! ```
//!
//! A caller whose bytes come in parts makes a [`LockedSession`] from an [`Opened`], and a [`SingleFileCleaner`] over one of its
//! passes. Its `finish` does not record the file: it returns the last chunks, and the record that waits for them
//! ([`Finished`]). The caller registers their xorb and records the file by `register_xorb` and `complete_file` of the session,
//! and flushes the session at the end. [`hash_files`] computes pointer records and stores nothing. Limits are those of
//! `xet_cut`, disks and sources those of `xet_io`.
#![tactic(auto)]

pub use xet_clean::{
    Cleaned, FinishedFile as Finished, Sha256Generator, Sha256Policy, clean_bytes, clean_file,
};
pub use xet_hash_files::hash_files;
pub use xet_locked_session::{LockedSession, Naming, Opened, Pass};
pub use xet_single_file::SingleFileCleaner;
pub use xet_store::Store as Session;
pub use xet_store_disk::XetFileInfo;
pub use xet_workers::clean_files;
