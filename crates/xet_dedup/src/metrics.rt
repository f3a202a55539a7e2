//! The metrics of a file's choices.

ghost use Rattle.std.specs.Prelude.{◌≡◌, ◌<◌, ◌≤◌, ◌^◌, length, take};
ghost use Rattle.std.specs.List.{AllByRecursion};
ghost use Rattle.xet_choices.specs.Sums.{run_of};
ghost use Rattle.xet_dedup.specs.Deduping.{metrics_of};
ghost use Rattle.xet_dedup.specs.internal.Counting.{HasRoom, counted};
ghost use Rattle.xet_dedup_queries.specs.Registering.{max_chunk_len};
ghost use Rattle.xet_file_plan.specs.Kept.{max_chunks};
ghost use Rattle.xet_hash.specs.Merkle.{total_len};

use xet_aggregate::DeduplicationMetrics;
use xet_choices::Choice;
use xet_hash::MerkleHash;

/// The sums over the choices for these chunks. `global_chunks` and `global_bytes` are of the runs that second passes found.
pub(crate) fn metrics_of(
    leaves: &[(MerkleHash, u64)],
    choices: &[Choice],
    global_chunks: u64,
    global_bytes: u64,
) -> DeduplicationMetrics
    requires each { length choices.now ≡ length leaves.now }
    requires few { length leaves.now ≤ max_chunks }
    requires small { AllByRecursion (λ leaf. leaf.1 ≤ max_chunk_len) leaves.now }
    ensures { result ≡ metrics_of leaves.now choices.now global_chunks global_bytes }
{
    let mut metrics = DeduplicationMetrics {
        deduped_chunks_by_global_dedup: global_chunks,
        deduped_bytes_by_global_dedup: global_bytes,
        ..DeduplicationMetrics::default()
    };
    'chunks: for at in 0..leaves.len() {
        let choice = &choices[at];
        let run_bytes = run_bytes(&leaves[at..], run_of(choice));
        count(&mut metrics, leaves[at].1, choice, run_bytes);
    }
    metrics
}

/// Counts a chunk of so many bytes. `run_bytes` is of the run that was rejected there, if any.
fn count(metrics: &mut DeduplicationMetrics, bytes: u64, choice: &Choice, run_bytes: u64)
    requires { HasRoom metrics.old bytes }
    ensures { metrics.new ≡ counted metrics.old bytes choice.now run_bytes }
{
    metrics.total_chunks += 1;
    metrics.total_bytes += bytes;
    if matches!(choice, Choice::Reused { .. }) {
        metrics.deduped_chunks += 1;
        metrics.deduped_bytes += bytes;
    } else {
        metrics.new_chunks += 1;
        metrics.new_bytes += bytes;
    }
    metrics.defrag_prevented_dedup_chunks = metrics
        .defrag_prevented_dedup_chunks
        .saturating_add(run_of(choice));
    metrics.defrag_prevented_dedup_bytes = metrics
        .defrag_prevented_dedup_bytes
        .saturating_add(run_bytes);
}

/// The number of chunks of the run that was rejected, if any.
fn run_of(choice: &Choice) -> u64
    ensures { result ≡ run_of choice.now }
{
    match choice {
        Choice::Refused { run } => *run,
        _ => 0,
    }
}

/// The number of bytes of the first `run` chunks, or of all if there are fewer.
fn run_bytes(leaves: &[(MerkleHash, u64)], run: u64) -> u64
    requires { total_len leaves.now < 2 ^ 64 }
    ensures { result ≡ total_len (take run leaves.now) }
{
    let count = (leaves.len() as u64).min(run) as usize;
    bytes_of(&leaves[..count])
}

/// The number of bytes of all chunks.
fn bytes_of(leaves: &[(MerkleHash, u64)]) -> u64
    requires { total_len leaves.now < 2 ^ 64 }
    ensures { result ≡ total_len leaves.now }
{
    leaves.iter().map(|leaf| leaf.1).sum()
}
