//! A theorem about the groups of a merge. It is the contract of a function without parameters and without effect.

ghost use Rattle.std.specs.Prelude.{ℕ, List, None};
ghost use Rattle.std.specs.List.{IsAmong};
ghost use Rattle.xet_shard_directory.specs.declared.shard_file.MDBShardFile.{MDBShardFile};
ghost use Rattle.xet_shard_merge.specs.Groups.{Group, Groups, IsOffered, Offered};
ghost use Rattle.xet_shard_merge.specs.Records.{HasRecordsOf, IsTakenOrSkipped};

/// Each shard that is offered is skipped, or one of the groups took it, and has all of its xorbs and files. Each shard
/// that is skipped or that a group took was offered, and each xorb and file of a group is one of a shard that it took.
pub fn groups_have_the_records()
    ensures taken { (target : ℕ) (offered : List Offered) (groups : List Group) (skipped : List MDBShardFile) → Groups target None offered groups skipped → (o : Offered) → IsAmong offered o → IsTakenOrSkipped groups skipped o }
    ensures records { (target : ℕ) (offered : List Offered) (groups : List Group) (skipped : List MDBShardFile) → Groups target None offered groups skipped → (g : Group) → IsAmong groups g → HasRecordsOf offered g }
    ensures skipped { (target : ℕ) (offered : List Offered) (groups : List Group) (skipped : List MDBShardFile) → Groups target None offered groups skipped → (s : MDBShardFile) → IsAmong skipped s → IsOffered offered s }
{}
