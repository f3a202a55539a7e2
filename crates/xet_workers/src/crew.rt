//! `Crew`: what workers share.

use std::alloc::Global;
use std::sync::Wait;
use xet_io::Disk;
use xet_locked_session::{Naming, StoppingSession};

/// What workers share: what starts threads and waits, where memory is taken, the session, and how many blocks of a file may wait
/// for its SHA-256.
#[derive(Drop)]
pub(crate) struct Crew<'a, D: Disk, J: Naming, R: Wait> {
    pub rt: &'a R,
    pub alloc: Global,
    pub session: &'a StoppingSession<D, J>,
    pub blocks_behind: usize,
}
