//! Theorems about byte groups. Each is the contract of a function that does nothing.

ghost use Rattle.std.specs.Prelude.{◌≡◌, ℕ, ◌+◌, ◌*◌, List, slice_get};
ghost use Rattle.xet_group.specs.Groups.{every_fourth, grouped, groups_of};

/// Byte j of the group that starts at index n is byte 4 j + n.
pub fn byte_stands()
    ensures { (n j : ℕ) (bytes : List ℕ)
        → slice_get (every_fourth n bytes) j ≡ slice_get bytes (4 * j + n) }
{}

/// The groups determine the bytes. So regrouping the groups of some bytes returns these bytes.
pub fn groups_determine()
    ensures { (one other : List ℕ) → groups_of one ≡ groups_of other → one ≡ other }
{}

/// The concatenated groups determine the bytes. So regrouping the concatenated groups of some bytes returns
/// these bytes.
pub fn split_determines()
    ensures { (one other : List ℕ) → grouped one ≡ grouped other → one ≡ other }
{}

/// Every list is the concatenated groups of some bytes.
pub fn every_list_is_grouped()
    ensures { (joined : List ℕ) → (bytes : List ℕ) × (grouped bytes ≡ joined) }
{}
