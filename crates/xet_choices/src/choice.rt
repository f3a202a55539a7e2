//! `Choice`.

/// Why a chunk of a file was stored, or where it was found.
#[derive(Clone, Copy, PartialEq, Eq, Debug)]
pub enum Choice {
    /// The chunk was not stored: it lies in a run that was found.
    Reused {
        /// The index of its segment in the file's reconstruction plan.
        segment: u64,
    },
    /// The chunk was stored: a query that began with it found nothing.
    NoPlace {
        /// The number of the history entry of that query.
        entry: u64,
    },
    /// The chunk was stored: the guard against fragmentation rejected the run that begins with it.
    Refused {
        /// The length of that run in chunks.
        run: u64,
    },
    /// The chunk was stored: it lies in a run that was found from an earlier chunk on, and was not used as far as here.
    Inside {
        /// The index in the file of the chunk with which that run begins.
        start: u64,
    },
}
