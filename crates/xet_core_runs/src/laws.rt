//! Theorems about the definitions. Each is the contract of a function without parameters that does nothing.

ghost use Rattle.std.specs.Prelude.{◌≡◌, ℕ, List};
ghost use Rattle.xet_core_runs.specs.Shards.{AreShardsOf};
ghost use Rattle.xet_history.specs.Core.{Core};
ghost use Rattle.xet_history.specs.Found.{found_run};
ghost use Rattle.xet_io.specs.Disk.{Files};
ghost use Rattle.xet_shard_lookup.specs.Found.{found};
ghost use Rattle.xet_shard_registry.specs.Registered.{Registered};

/// The run of a query in what is pending and in the files of registered shards is the run of the query in a core that has
/// these shards, if each file is there and holds its shard.
pub fn registered_runs_are_those_of_the_core()
    ensures { (files : Files) (c : Core) (shards : List Registered) (query : List (List ℕ)) → AreShardsOf files c shards → found files c.pending shards query ≡ found_run c query }
{}
