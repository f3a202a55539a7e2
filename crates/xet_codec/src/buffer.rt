//! `Buffer`: collects short writes before they go to a sink.

ghost use Rattle.std.specs.Prelude.{◌≡◌, ◌≤◌, true, ◌++◌, IfErr, IsErrOf, OnErr, OnOk};
ghost use Rattle.xet_hash.specs.declared.error.Place.TheVariants.{Output};
ghost use Rattle.xet_hash.specs.declared.error.StoreError.TheVariants.{Io};
ghost use Rattle.xet_codec.specs.Written.{WritesPrefix};
ghost use Rattle.xet_codec.specs.Stops.{StopsWriting};
ghost use Rattle.xet_io.specs.Frame.{Called};

use crate::write_piece;
use xet_hash::{MerkleHash, StoreError};
use xet_io::Sink;

/// The maximum number of buffered bytes.
const ROOM: usize = 2048;

/// At most 2,048 bytes, which are buffered until they are written to a sink together.
#[derive(Drop)]
pub struct Buffer {
    /// The buffered bytes are at the start.
    bytes: [u8; ROOM],
    /// The number of buffered bytes.
    used: usize,
    ghost within: { used ≤ 2048 },
}

impl Buffer {
    ghost use Rattle.std.specs.Prelude.{◌≡◌, ◌+◌, ◌*◌, ◌<◌, ◌≤◌, true, ◌++◌, IfErr, IsErrOf, OnErr, OnOk, [], length};
    ghost use Rattle.xet_hash.specs.declared.error.Place.TheVariants.{Output};
    ghost use Rattle.xet_hash.specs.declared.error.StoreError.TheVariants.{Io};
    ghost use Rattle.std.specs.List.{flat_map};
    ghost use Rattle.xet_codec.specs.Buffered.{IsEmpty, buffered_in};
    ghost use Rattle.xet_codec.specs.Numbers.{joined, numbers};
    ghost use Rattle.xet_codec.specs.Written.{WritesPrefix, Moves};
    ghost use Rattle.xet_codec.specs.Stops.{StopsWriting};
    ghost use Rattle.xet_io.specs.Frame.{Called};

    /// An empty buffer.
    pub fn new() -> Buffer
        ensures { buffered_in result ≡ [] }
    {
        Buffer {
            bytes: [0; ROOM],
            used: 0,
        }
    }

    /// Appends a slice to the buffered bytes. If there is no room, these are written first. A slice that is
    /// longer than the buffer is then written directly.
    pub fn put<W: Sink>(&mut self, sink: &mut W, piece: &[u8]) -> Result<(), StoreError>
        ensures moved { W.tells sink.old ≡ true → OnOk result (Moves (W.written sink.old) (W.written sink.new) (buffered_in self.new) (buffered_in self.old ++ piece.now)) }
        ensures prefix { W.tells sink.old ≡ true → OnErr result (WritesPrefix (W.written sink.old) (W.written sink.new) (buffered_in self.old ++ piece.now)) }
        ensures errors { IfErr result StopsWriting }
        ensures frame { Called W.tells W.faults sink.old sink.new (IsErrOf result (Io Output)) }
    {
        self.make_room(sink, piece.len())?;
        if piece.len() > ROOM {
            write_piece(sink, piece)
        } else {
            self.keep(piece);
            Ok(())
        }
    }

    /// Appends these slices, in order.
    pub fn put_all<W: Sink>(&mut self, sink: &mut W, pieces: &[&[u8]]) -> Result<(), StoreError>
        ensures moved { W.tells sink.old ≡ true → OnOk result (Moves (W.written sink.old) (W.written sink.new) (buffered_in self.new) (buffered_in self.old ++ flat_map (λ p. p.now) pieces.now)) }
        ensures prefix { W.tells sink.old ≡ true → OnErr result (WritesPrefix (W.written sink.old) (W.written sink.new) (buffered_in self.old ++ flat_map (λ p. p.now) pieces.now)) }
        ensures errors { IfErr result StopsWriting }
        ensures frame { Called W.tells W.faults sink.old sink.new (IsErrOf result (Io Output)) }
    {
        for piece in pieces {
            self.put(sink, piece)?;
        }
        Ok(())
    }

    /// Appends these numbers, four bytes each, little-endian.
    pub fn put_numbers<W: Sink>(&mut self, sink: &mut W, list: &[u32]) -> Result<(), StoreError>
        ensures moved { W.tells sink.old ≡ true → OnOk result (Moves (W.written sink.old) (W.written sink.new) (buffered_in self.new) (buffered_in self.old ++ numbers list.now)) }
        ensures prefix { W.tells sink.old ≡ true → OnErr result (WritesPrefix (W.written sink.old) (W.written sink.new) (buffered_in self.old ++ numbers list.now)) }
        ensures errors { IfErr result StopsWriting }
        ensures frame { Called W.tells W.faults sink.old sink.new (IsErrOf result (Io Output)) }
    {
        for number in list {
            self.put(sink, &number.to_le_bytes())?;
        }
        Ok(())
    }

    /// Appends these hashes, 32 bytes each.
    pub fn put_hashes<W: Sink>(
        &mut self,
        sink: &mut W,
        hashes: &[MerkleHash],
    ) -> Result<(), StoreError>
        ensures moved { W.tells sink.old ≡ true → OnOk result (Moves (W.written sink.old) (W.written sink.new) (buffered_in self.new) (buffered_in self.old ++ joined hashes.now)) }
        ensures length { OnOk result (length (joined hashes.now) ≡ 32 * length hashes.now) }
        ensures prefix { W.tells sink.old ≡ true → OnErr result (WritesPrefix (W.written sink.old) (W.written sink.new) (buffered_in self.old ++ joined hashes.now)) }
        ensures errors { IfErr result StopsWriting }
        ensures frame { Called W.tells W.faults sink.old sink.new (IsErrOf result (Io Output)) }
    {
        for hash in hashes {
            self.put(sink, hash.as_bytes())?;
        }
        Ok(())
    }

    /// Writes the buffered bytes.
    pub fn flush<W: Sink>(&mut self, sink: &mut W) -> Result<(), StoreError>
        ensures moved { W.tells sink.old ≡ true → OnOk result (W.written sink.new ≡ W.written sink.old ++ buffered_in self.old) }
        ensures empty { OnOk result (IsEmpty self.new) }
        ensures prefix { W.tells sink.old ≡ true → OnErr result (WritesPrefix (W.written sink.old) (W.written sink.new) (buffered_in self.old)) }
        ensures errors { IfErr result StopsWriting }
        ensures frame { Called W.tells W.faults sink.old sink.new (IsErrOf result (Io Output)) }
    {
        write_piece(sink, &self.bytes[..self.used])?;
        self.used = 0;
        Ok(())
    }

    /// Makes room for `len` bytes. If the buffer is shorter than that, empties it.
    fn make_room<W: Sink>(&mut self, sink: &mut W, len: usize) -> Result<(), StoreError>
        ensures moved { W.tells sink.old ≡ true → OnOk result (Moves (W.written sink.old) (W.written sink.new) (buffered_in self.new) (buffered_in self.old)) }
        ensures room { OnOk result (len ≤ 2048 → self.new.used + len ≤ 2048) }
        ensures empty { OnOk result (2048 < len → self.new.used ≡ 0) }
        ensures prefix { W.tells sink.old ≡ true → OnErr result (WritesPrefix (W.written sink.old) (W.written sink.new) (buffered_in self.old)) }
        ensures errors { IfErr result StopsWriting }
        ensures frame { Called W.tells W.faults sink.old sink.new (IsErrOf result (Io Output)) }
    {
        if len > ROOM - self.used {
            self.flush(sink)
        } else {
            Ok(())
        }
    }

    /// Appends a slice for which there is room.
    fn keep(&mut self, piece: &[u8])
        requires { self.old.used + length piece.now ≤ 2048 }
        ensures { buffered_in self.new ≡ buffered_in self.old ++ piece.now }
    {
        let end = self.used + piece.len();
        self.bytes[self.used..end].copy_from_slice(piece);
        self.used = end;
    }
}
