//! Theorems about the definitions. Each is the contract of a function without parameters and without effect.

ghost use Rattle.xet_xorb.specs.Laws.{ContentsAreChunks, LastFooterIsRead, LengthsAddUp, RangesAreChunks, BytesDetermineChunks};

/// The bytes of a xorb determine its chunks.
pub fn bytes_determine_chunks()
    ensures { BytesDetermineChunks }
{}

/// The footer that is read at the end of a xorb is that of its chunks.
pub fn last_footer_is_read()
    ensures { LastFooterIsRead }
{}

/// A range that is read of a validated xorb has the bytes of its chunks, if the xorb hash is not zero. With a
/// zero hash the footer is incomplete, and the read fails.
pub fn ranges_are_chunks()
    ensures { RangesAreChunks }
{}

/// The contents that are read of a validated xorb are the bytes of its chunks, if the xorb hash is not zero.
pub fn contents_are_chunks()
    ensures { ContentsAreChunks }
{}

/// On a validated xorb with a footer of version 1, the lengths of adjacent ranges add up, if the xorb hash is
/// not zero.
pub fn lengths_add_up()
    ensures { LengthsAddUp }
{}
