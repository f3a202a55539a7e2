//! Look-up of a word in runs.

ghost use Rattle.std.specs.Prelude.{◌≡◌, ℕ, ◌+◌, ◌-◌, ◌*◌, ◌^◌, ◌<◌, ◌≤◌, List, [], length, nat_eq};
ghost use Rattle.std.specs.Map.{lookup};
ghost use Rattle.xet_shard_index.specs.Runs.{IsBetween, Item, Rising, merged};
ghost use Rattle.xet_shard_index.specs.internal.Lengths.{AreRuns};
ghost use Rattle.xet_shard_index.specs.internal.Starts.{AreStarts};

use crate::starts::Starts;
use crate::steps::Steps;
use crate::word_place::WordPlace;
use crate::word_run::WordRun;
use std::cmp::Ordering;
use std::sync::ledger::Ledger;

/// The place of a word in the newest run that has it.
pub(crate) fn find_in_runs<L: Ledger>(
    runs: &[WordRun],
    word: u64,
    steps: &mut Steps<L>,
) -> Option<WordPlace>
    requires { AreRuns runs.now }
    ensures place { result ≡ lookup (nat_eq word) (merged runs.now) }
    ensures steps { (b : ℕ) → length (merged runs.now) < 2 ^ b → steps.new ≤ steps.old + b * b }
{
    let mut left = runs.len();
    while left > 0 {
        left -= 1;
        let found = find_in_run(&runs[left], word, steps);
        if found.is_some() {
            return found;
        }
    }
    None
}

/// The place of a word in a run.
fn find_in_run<L: Ledger>(run: &WordRun, word: u64, steps: &mut Steps<L>) -> Option<WordPlace>
    requires { Rising run.now }
    ensures place { result ≡ lookup (nat_eq word) run.now }
    ensures steps { (b : ℕ) → length run.now < 2 ^ b → steps.new ≤ steps.old + (2 * b - 1) }
{
    let (low, high) = range(run.starts(), run.len(), word, steps);
    bisect(run, word, low, high, steps)
}

/// From which item on, and before which one, a word can stand in a run of so many items with these starts. It reads at
/// most two starts, and sees no word of the run.
fn range<L: Ledger>(starts: &Starts, count: u64, word: u64, steps: &mut Steps<L>) -> (u64, u64)
    ensures between { (run : List Item) → length run ≡ count → AreStarts starts.now.shift run starts.now.starts.items → IsBetween run word result.0 result.1 }
    ensures steps { steps.new ≤ steps.old + 2 }
    ensures none { starts.now.starts.items ≡ [] → steps.new ≡ steps.old }
{
    if starts.is_empty() {
        return (0, count);
    }
    let leading = starts.leading(word);
    let Some(low) = starts.read(leading, steps) else {
        return (0, count);
    };
    match starts.read(leading + 1, steps) {
        Some(high) => (low, high),
        None => (low, count),
    }
}

/// The place of a word in a run, by bisection of the items among which it can stand.
fn bisect<L: Ledger>(
    run: &WordRun,
    word: u64,
    from: u64,
    to: u64,
    steps: &mut Steps<L>,
) -> Option<WordPlace>
    requires rising { Rising run.now }
    requires between { IsBetween run.now word from to }
    ensures place { result ≡ lookup (nat_eq word) run.now }
    ensures steps { (b : ℕ) → length run.now < 2 ^ b → steps.new ≤ steps.old + b }
{
    let mut low = from;
    let mut high = to;
    while low < high {
        let middle = low + (high - low) / 2;
        match run.compare(middle, word, steps) {
            Ordering::Less => low = middle + 1,
            Ordering::Equal => return Some(run.place(middle)),
            Ordering::Greater => high = middle,
        }
    }
    None
}
