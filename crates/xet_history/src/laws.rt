//! Theorems about the definitions. Each is the contract of a function without parameters that does nothing.

ghost use Rattle.std.specs.Prelude.{◌≡◌, ◌++◌, ◌∷◌, [], ℕ, Bool, List, None, Some};
ghost use mathlib.Core.List.{IsPrefix};
ghost use Rattle.xet_io.specs.Disk.{Files};
ghost use Rattle.xet_folder.specs.Xorbs.{found};
ghost use Rattle.xet_history.specs.Core.{Core, registered};
ghost use Rattle.xet_history.specs.Found.{found_run};
ghost use Rattle.xet_history.specs.History.{Legal, Moves, Replays, after_all, stated};
ghost use Rattle.xet_history.specs.Interleaving.{AreApart, Move, Run, StaysSound, entries_of};
ghost use Rattle.xet_history.specs.Sound.{IsSound};
ghost use Rattle.xet_history.specs.declared.entry.Entry.{Entry};

/// Steps of several callers, in any order, from a sound core on: their entries are a legal history, and the core is sound
/// after each of them. Each file is recorded over xorbs that its caller had seen listed; what was registered since does
/// not matter. It is believed that equal digests of the shards that are met have equal contents.
pub fn interleavings()
    ensures legal { (tells : Bool) (folder : List ℕ) (c : Core) (files : Files) (moves : List Move) → Run folder [] c files moves → Legal tells c (entries_of c moves) }
    ensures sound { (folder : List ℕ) (c : Core) (files : Files) (moves : List Move) → IsSound files folder c → AreApart files folder c moves → Run folder [] c files moves → StaysSound folder c files moves }
{}

/// A xorb that is registered twice is there as after once.
pub fn registering_twice()
    ensures { (c : Core) (leaves : List (List ℕ × ℕ)) → registered (registered c leaves) leaves ≡ registered c leaves }
{}

/// Histories that follow one another are one, and each front of a legal history is legal.
pub fn histories_join()
    ensures both { (tells : Bool) (a b c : Core) (first second third xs ys : List Entry) → Moves tells a b first second xs → Moves tells b c second third ys → Moves tells a c first third (xs ++ ys) }
    ensures more { (tells : Bool) (c d : Core) (old new added : List Entry) → Replays tells c old → Moves tells c d old new added → Replays tells d new }
    ensures front { (tells : Bool) (c : Core) (xs ys : List Entry) → Legal tells c (xs ++ ys) → Legal tells c xs }
{}

/// What is listed and recorded stays so, whatever the entries: a listed xorb keeps its chunks, and new records follow the
/// earlier ones.
pub fn nothing_is_taken_away()
    ensures xorbs { (c : Core) (entries : List Entry) (h : List ℕ) (leaves : List (List ℕ × ℕ)) → found c.xorbs h ≡ Some leaves → found (after_all c entries).xorbs h ≡ Some leaves }
    ensures records { (c : Core) (entries : List Entry) → IsPrefix c.records (after_all c entries).records }
    ensures shards { (c : Core) (entries : List Entry) → IsPrefix c.shards (after_all c entries).shards }
{}

/// The hashes of a query that its entry states have the reply of the whole query. Whether there is one depends on the
/// first hash alone.
pub fn stated_hashes_suffice()
    ensures same { (c : Core) (hashes : List (List ℕ)) → found_run c (stated hashes (found_run c hashes)) ≡ found_run c hashes }
    ensures first { (c : Core) (h : List ℕ) (hs others : List (List ℕ)) → found_run c (h ∷ hs) ≡ None → found_run c (h ∷ others) ≡ None }
{}
