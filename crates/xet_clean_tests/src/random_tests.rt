//! Random files that share parts are cleaned, flushed, and read back from the folder that is opened again.

use crate::session::Session;
use rand_core::{Rng, SeedableRng};
use rand_pcg::Pcg64;
use std::alloc::Global;
use std::test::Fail;
use xet_clean::Cleaned;
use xet_hash::StoreError;

/// Random bytes, as many as given.
fn random_bytes(alloc: Global, length: u32, rng: &mut Pcg64) -> Result<Vec<u8>, StoreError> {
    let mut bytes = Vec::new(alloc);
    for _done in 0..length {
        bytes.push((rng.next_u32() % 256) as u8)?;
    }
    Ok(bytes)
}

/// The length of a part: every other one is one or two whole chunks.
fn part_length(number: u32, rng: &mut Pcg64) -> u32 {
    if number % 2 == 0 {
        64 + 64 * (rng.next_u32() % 2)
    } else {
        1 + rng.next_u32() % 100
    }
}

/// Twelve parts that files share.
fn parts_of(alloc: Global, rng: &mut Pcg64) -> Result<Vec<Vec<u8>>, StoreError> {
    let mut parts = Vec::new(alloc);
    for number in 0..12 {
        let length = part_length(number, rng);
        parts.push(random_bytes(alloc, length, rng)?)?;
    }
    Ok(parts)
}

/// A file of at most four of these parts.
fn file_of(alloc: Global, parts: &[Vec<u8>], rng: &mut Pcg64) -> Result<Vec<u8>, StoreError> {
    let mut file = Vec::new(alloc);
    for _done in 0..rng.next_u32() % 5 {
        if let Some(part) = parts.get((rng.next_u32() % 12) as usize) {
            file.extend_from_slice(part)?;
        }
    }
    Ok(file)
}

/// From one to forty files; few more often than many.
fn files_of(alloc: Global, rng: &mut Pcg64) -> Result<Vec<Vec<u8>>, StoreError> {
    let parts = parts_of(alloc, rng)?;
    let mut files = Vec::new(alloc);
    let most = 1 + rng.next_u32() % 40;
    for _done in 0..1 + rng.next_u32() % most {
        files.push(file_of(alloc, &parts, rng)?)?;
    }
    Ok(files)
}

/// Whether each file is read back by its pointer record.
fn are_read_back(
    session: &mut Session,
    answer: &Result<Cleaned, StoreError>,
    files: &[Vec<u8>],
) -> Result<bool, StoreError> {
    match answer {
        Ok(cleaned) => have_files(session, cleaned, files),
        Err(error) => Err(*error),
    }
}

/// The same without an error.
fn have_files(
    session: &mut Session,
    cleaned: &Cleaned,
    files: &[Vec<u8>],
) -> Result<bool, StoreError> {
    let mut good = cleaned.infos.len() == files.len();
    for (info, file) in cleaned.infos.iter().zip(files) {
        good = session.has_file(&info.hash, file)? && good;
    }
    Ok(good)
}

/// Whether random files are read back.
fn is_read_back(alloc: Global, rng: &mut Pcg64) -> Result<bool, StoreError> {
    let files = files_of(alloc, rng)?;
    let (session, answer) = Session::of_small_xorbs(alloc)?.clean_all(&files);
    match session.flush_and_open() {
        Ok(mut session) => {
            let good = are_read_back(&mut session, &answer, &files);
            session.close();
            good
        }
        Err(error) => Err(error),
    }
}

#[test]
fn random_files_are_read_back(rt: HostRuntime) -> Result<(), Fail> {
    let mut rng = Pcg64::seed_from_u64(22);
    for _done in 0..200 {
        assert!(rt; is_read_back(rt.alloc(), &mut rng)?);
    }
    Ok(())
}
