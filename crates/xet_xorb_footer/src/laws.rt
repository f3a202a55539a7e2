//! Theorems about footers: round trips and lengths. Each is the contract of a function without parameters and
//! without effect. They apply to footers with the magic, versions, lists and offsets of the format
//! (`IsStandard`).

ghost use Rattle.xet_xorb_footer.specs.Laws.{LastIsRead, LastIsReadV0, LengthIsKnown, LengthIsKnownV0, WrittenIsRead, WrittenIsReadV0};

/// A footer of version 1 is read back from its encoding, whatever bytes follow.
pub fn written_is_read()
    ensures { WrittenIsRead }
{}

/// A footer of version 1 with n chunks has 92 + 40 n bytes.
pub fn length_is_known()
    ensures { LengthIsKnown }
{}

/// A footer of version 1 that is followed by its length is read back at the end of any bytes, with that
/// length.
pub fn last_is_read()
    ensures { LastIsRead }
{}

/// A footer of version 0 is read back from its encoding, converted to version 1, whatever bytes follow.
pub fn written_is_read_v0()
    ensures { WrittenIsReadV0 }
{}

/// A footer of version 0 with n chunks has 60 + 36 n bytes.
pub fn length_is_known_v0()
    ensures { LengthIsKnownV0 }
{}

/// A footer of version 0 that is followed by its length is read back at the end of any bytes, converted to
/// version 1, with that length.
pub fn last_is_read_v0()
    ensures { LastIsReadV0 }
{}
