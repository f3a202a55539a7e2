//! `ShardFileManager`: the shards of a folder.

ghost use Rattle.std.specs.Prelude.{◌≡◌, ◌+◌, ◌-◌, ◌^◌, List, min};
ghost use Rattle.std.specs.Borrow.{Lends, sem};
ghost use Rattle.std.specs.List.{sum_by};
ghost use Rattle.xet_shard_format.specs.Encoding.{materialized, stored};
ghost use Rattle.xet_shard_registry.specs.Collections.{IsRegistryOf};
ghost use Rattle.xet_shard_registry.specs.Registered.{Registered, materialized_of, stored_of};

mod adding;
mod asking;
mod opening;
mod registering;
mod reserving;

use crate::room::Room;
use crate::settings::ManagerSettings;
pub use asking::FileReconstructor;
use std::alloc::Global;
use std::marker::Model;
use xet_base::Text;
use xet_io::Disk;
use xet_shard::MDBInMemoryShard;
use xet_shard_registry::ShardRegistry;

/// The shards of a folder: the registered ones, whose files are on the disk, and xorbs and files that are pending until
/// they are written as one. Contracts see a `ManagerState`.
#[derive(Drop)]
pub struct ShardFileManager<D: Disk> {
    disk: D,
    alloc: Global,
    folder: Text,
    settings: ManagerSettings,
    /// The time that was last passed, in seconds since the Unix epoch.
    moment: u64,
    registry: ShardRegistry,
    pending: MDBInMemoryShard,
    /// Whether the folder was cleaned of expired shards.
    cleaned: bool,
    /// The memory that was taken ahead.
    room: Room,
}

impl<D: Disk> Model for ShardFileManager<D> {
    ghost use Rattle.std.specs.Coded.{codes};
    ghost use Rattle.xet_manager.specs.Coding.{files_code};
    ghost use Rattle.xet_manager.specs.Manager.{ManagerState, manager_state};
    ghost use Rattle.xet_manager.specs.internal.Room.{HasRoomFor};

    ghost Value = { ManagerState };

    ghost coded = { Prim.hlevel (codes, files_code) };

    ghost view = { λ m. manager_state (D.tells m.disk) (D.files m.disk) (D.faults m.disk) m.folder m.settings m.moment m.registry m.pending m.cleaned m.room.bytes };

    ghost invariant = { λ m. HasRoomFor m.folder m.pending m.moment m.room };
}

impl<D: Disk> ShardFileManager<D> {
    ghost use Rattle.xet_manager.specs.contracts.manager.ShardFileManager.{the_row};

    /// The folder.
    pub fn shard_directory(&self) -> &str
        ensures { result.now ≡ self.now.folder }
    {
        self.folder.as_str()
    }

    /// The disk, to be used directly. The rest of the manager stays as it is.
    pub fn disk(&mut self) -> &mut D
        ensures* lent { sem 𝓛 (Lends (the_row D.row D.Disk) D.row self.entry result (λ d. record self.old { tells = D.tells d; files = D.files d; faults = D.faults d })) }
        ensures tells { D.tells result.now ≡ self.old.tells }
        ensures files { D.files result.now ≡ self.old.files }
        ensures faults { D.faults result.now ≡ self.old.faults }
    {
        &mut self.disk
    }

    /// The disk. What is pending is given up.
    pub fn into_disk(self) -> D
        ensures tells { D.tells result ≡ self.tells }
        ensures files { D.files result ≡ self.files }
        ensures faults { D.faults result ≡ self.faults }
    {
        self.disk
    }

    /// The uncompressed bytes of the pending files, and of those of the registered shards as their footers state them;
    /// at most 2^64 - 1.
    pub fn calculate_total_materialized_bytes(&self) -> u64
        ensures { (shards : List Registered) → IsRegistryOf shards self.now.registry → result ≡ min (materialized self.now.pending.files + sum_by materialized_of shards) (2 ^ 64 - 1) }
    {
        self.pending
            .materialized_bytes()
            .saturating_add(self.registry.materialized_bytes())
    }

    /// The uncompressed bytes of the chunks of the pending xorbs, and of those of the registered shards as their
    /// footers state them; at most 2^64 - 1.
    pub fn calculate_total_stored_bytes(&self) -> u64
        ensures { (shards : List Registered) → IsRegistryOf shards self.now.registry → result ≡ min (stored self.now.pending.blocks + sum_by stored_of shards) (2 ^ 64 - 1) }
    {
        self.pending
            .stored_bytes()
            .saturating_add(self.registry.stored_bytes())
    }
}
