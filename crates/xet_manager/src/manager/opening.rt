//! Opening a manager over a folder.

ghost use Rattle.std.specs.Prelude.{◌≡◌, ◌≤◌, ◌<◌, ◌^◌, [], IfErr, IfOk, IsOkUnless, None, false, length, string_bytes, true};
ghost use Rattle.xet_manager.specs.Manager.{IsOpened, IsUnopened, IsUnscanned, ScansFolder, manager_state};
ghost use Rattle.xet_shard.specs.Held.{nothing};
ghost use Rattle.xet_shard_registration.specs.Refreshing.{RegistersDirectory};
ghost use Rattle.xet_shard_registration.specs.Registering.{IsGrown, IsRegistrationError};
ghost use Rattle.xet_shard_registry.specs.Collections.{IsRegistryOf};

use crate::manager::ShardFileManager;
use crate::room::Room;
use crate::settings::ManagerSettings;
use std::alloc::Global;
use xet_base::Text;
use xet_hash::{Refused, StoreError};
use xet_io::Disk;
use xet_shard::MDBInMemoryShard;
use xet_shard_registry::ShardRegistry;

impl<D: Disk> ShardFileManager<D> {
    /// A manager over the folder of a session at the time `now`, in seconds since the Unix epoch. Nothing is pending.
    /// If `scan`, the valid shard files of the folder are registered, the newest modification time first and equal ones
    /// in ascending order of path; malformed ones are passed over. No file changes. An error returns the disk.
    pub fn new_in_session_directory(
        alloc: Global,
        disk: D,
        directory: String,
        settings: ManagerSettings,
        now: u64,
        scan: bool,
    ) -> Result<ShardFileManager<D>, Refused<D>>
        ensures opened { IfOk result (IsOpened (D.tells disk) (D.faults disk) (string_bytes directory) settings now) }
        ensures scanned { D.tells disk ≡ true → scan ≡ true → IfOk result (ScansFolder (D.files disk) false 0) }
        ensures unscanned { scan ≡ false → IfOk result (λ m. IsRegistryOf [] m.registry) }
        ensures grown { IfOk result (λ m. IsGrown settings.index_cap m.registry) }
        ensures few { IfOk result (λ m. length m.registry.files < 2 ^ 32) }
        ensures files { D.tells disk ≡ true → IfOk result (λ m. m.files ≡ D.files disk) }
        ensures refused { D.tells disk ≡ true → IfErr result (λ r. IsUnopened settings.index_cap (D.files disk) (D.files r.disk) (string_bytes directory) false 0 settings.buffer now r.error) }
        ensures memory { scan ≡ false → IfErr result (λ r. r.error ≡ StoreError.OutOfMemory) }
        ensures reason { IfErr result (λ r. IsRegistrationError (D.faults disk) (D.faults r.disk) r.error) }
        ensures disk { IfErr result (λ r. (D.tells r.disk ≡ D.tells disk) × (r.name ≡ None)) }
        ensures kept { D.tells disk ≡ true → IfErr result (λ r. D.files r.disk ≡ D.files disk) }
        ensures later { IfErr result (λ r. D.faults disk ≤ D.faults r.disk) }
    {
        match empty_parts(alloc, directory) {
            Err(error) => Err(Refused {
                disk,
                error,
                name: None,
            }),
            Ok((folder, registry)) => {
                let manager = ShardFileManager::of_parts(
                    alloc, disk, folder, settings, now, registry,
                );
                if scan {
                    manager.scanned(false, 0, now)
                } else {
                    Ok(manager)
                }
            }
        }
    }

    /// A manager over a folder that is a cache, at the time `now`. The folder is scanned as by
    /// `new_in_session_directory`; its expired shard files that may be deleted are, and the valid ones are pruned to
    /// the cache limit of the settings, the oldest creation first. After an error some of these may have been removed;
    /// it returns the disk.
    pub fn new_in_cache_directory(
        alloc: Global,
        disk: D,
        directory: String,
        settings: ManagerSettings,
        now: u64,
    ) -> Result<ShardFileManager<D>, Refused<D>>
        ensures opened { IfOk result (IsOpened (D.tells disk) (D.faults disk) (string_bytes directory) settings now) }
        ensures scanned { D.tells disk ≡ true → IfOk result (ScansFolder (D.files disk) true settings.cache_limit) }
        ensures grown { IfOk result (λ m. IsGrown settings.index_cap m.registry) }
        ensures few { IfOk result (λ m. length m.registry.files < 2 ^ 32) }
        ensures refused { D.tells disk ≡ true → IfErr result (λ r. IsUnopened settings.index_cap (D.files disk) (D.files r.disk) (string_bytes directory) true settings.cache_limit settings.buffer now r.error) }
        ensures reason { IfErr result (λ r. IsRegistrationError (D.faults disk) (D.faults r.disk) r.error) }
        ensures disk { IfErr result (λ r. (D.tells r.disk ≡ D.tells disk) × (r.name ≡ None)) }
        ensures later { IfErr result (λ r. D.faults disk ≤ D.faults r.disk) }
    {
        match empty_parts(alloc, directory) {
            Err(error) => Err(Refused {
                disk,
                error,
                name: None,
            }),
            Ok((folder, registry)) => {
                ShardFileManager::of_parts(alloc, disk, folder, settings, now, registry).scanned(
                    true,
                    settings.cache_limit,
                    now,
                )
            }
        }
    }

    /// A manager of these parts. Nothing is pending.
    fn of_parts(
        alloc: Global,
        disk: D,
        folder: Text,
        settings: ManagerSettings,
        now: u64,
        registry: ShardRegistry,
    ) -> ShardFileManager<D>
        ensures { result ≡ manager_state (D.tells disk) (D.files disk) (D.faults disk) folder settings now registry nothing false 0 }
    {
        ShardFileManager {
            disk,
            alloc,
            folder,
            settings,
            moment: now,
            registry,
            pending: MDBInMemoryShard::new(alloc),
            cleaned: false,
            room: Room::new(alloc),
        }
    }

    /// The manager after the valid shard files of its folder were registered.
    fn scanned(
        mut self,
        prune_expired: bool,
        prune_to: u64,
        now: u64,
    ) -> Result<ShardFileManager<D>, Refused<D>>
        ensures registered { self.tells ≡ true → IfOk result (λ m. RegistersDirectory self.settings.index_cap self.files m.files self.folder prune_expired prune_to self.settings.buffer now self.registry m.registry) }
        ensures rest { IfOk result (λ m. m ≡ record self { files = m.files; registry = m.registry; faults = m.faults; moment = now; room = 0 }) }
        ensures later { IfOk result (λ m. self.faults ≤ m.faults) }
        ensures unchanged { self.tells ≡ true → prune_expired ≡ false → prune_to ≡ 0 → IfOk result (λ m. m.files ≡ self.files) }
        ensures refused { IfErr result (λ r. IsRegistrationError self.faults (D.faults r.disk) r.error) }
        ensures disk { IfErr result (λ r. (D.tells r.disk ≡ self.tells) × (r.name ≡ None)) }
        ensures kept { self.tells ≡ true → prune_expired ≡ false → prune_to ≡ 0 → IfErr result (λ r. D.files r.disk ≡ self.files) }
        ensures grown { IsRegistryOf [] self.registry → IfOk result (λ m. IsGrown self.settings.index_cap m.registry) }
        ensures few { IsRegistryOf [] self.registry → IfOk result (λ m. length m.registry.files < 2 ^ 32) }
        ensures unscanned { self.tells ≡ true → IsRegistryOf [] self.registry → IfErr result (λ r. IsUnscanned self.settings.index_cap self.files (D.files r.disk) self.folder prune_expired prune_to self.settings.buffer now r.error) }
        ensures counted { IfErr result (λ r. self.faults ≤ D.faults r.disk) }
    {
        match self.refresh_shard_dir(prune_expired, prune_to, now) {
            Ok(()) => Ok(self),
            Err(error) => Err(Refused {
                disk: self.disk,
                error,
                name: None,
            }),
        }
    }
}

/// The text of a folder's path, and a registry without shards.
fn empty_parts(alloc: Global, directory: String) -> Result<(Text, ShardRegistry), StoreError>
    ensures folder { IfOk result (λ parts. parts.0 ≡ string_bytes directory) }
    ensures empty { IfOk result (λ parts. IsRegistryOf [] parts.1) }
    ensures memory { IsOkUnless result StoreError.OutOfMemory }
{
    match ShardRegistry::new(alloc) {
        Ok(registry) => Ok((Text::new(directory), registry)),
        Err(error) => Err(error),
    }
}
