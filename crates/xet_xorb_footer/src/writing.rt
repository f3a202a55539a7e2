//! Footers that are written to sinks.

ghost use Rattle.std.specs.Prelude.{◌≡◌, ◌<◌, ◌^◌, ◌⊎◌, ℕ, ◌++◌, true, IfErr, IfOk, IsErrOf, OnOk, take, length, ◌↔◌, IsTrue};
ghost use Rattle.xet_hash.specs.declared.error.Place.TheVariants.{Output};
ghost use Rattle.xet_hash.specs.declared.error.Reason.TheVariants.{ListLength};
ghost use Rattle.xet_hash.specs.declared.error.StoreError.TheVariants.{Io, MalformedData, OutOfMemory};
ghost use Rattle.xet_codec.specs.Buffered.{buffered_in};
ghost use Rattle.xet_xorb_footer.specs.FooterEncoding.{HasLists, HasShortLists, length_of, length_of_v0, footer_bytes_v0, footer_bytes_v1};
ghost use Rattle.xet_xorb_footer.specs.internal.Putting.{Puts};
ghost use Rattle.xet_codec.specs.Stops.{StopsWriting};
ghost use Rattle.xet_io.specs.Frame.{Called};

use crate::info::{XorbObjectInfoV0, XorbObjectInfoV1};
use xet_codec::Buffer;
use xet_hash::{Reason, StoreError};
use xet_io::Sink;

impl XorbObjectInfoV0 {
    /// Writes the footer, with its lists as they are, and returns the number of bytes, which must be below
    /// 2^64. If the sink fails, a prefix was written.
    pub fn serialize<W: Sink>(&self, sink: &mut W) -> Result<usize, StoreError>
        requires { length_of_v0 self.now < 2 ^ 64 }
        ensures written { W.tells sink.old ≡ true → OnOk result (W.written sink.new ≡ W.written sink.old ++ footer_bytes_v0 self.now) }
        ensures bytes { IfOk result (λ n. n ≡ length (footer_bytes_v0 self.now)) }
        ensures length { IfOk result (λ n. n ≡ length_of_v0 self.now) }
        ensures prefix { W.tells sink.old ≡ true → (n : ℕ) × (W.written sink.new ≡ W.written sink.old ++ take n (footer_bytes_v0 self.now)) }
        ensures refused { IfErr result StopsWriting }
        ensures frame { Called W.tells W.faults sink.old sink.new (IsErrOf result (Io Output)) }
    {
        let mut buffer = Buffer::new();
        self.put(&mut buffer, sink)?;
        buffer.flush(sink)?;
        Ok(
            60 + 4 * self.chunk_boundary_offsets.as_slice().len()
                + 32 * self.chunk_hashes.as_slice().len(),
        )
    }

    /// Writes the footer through a buffer.
    fn put<W: Sink>(&self, buffer: &mut Buffer, sink: &mut W) -> Result<(), StoreError>
        ensures puts { W.tells sink.old ≡ true → Puts result (W.written sink.old) (W.written sink.new) (buffered_in buffer.new) (buffered_in buffer.old ++ footer_bytes_v0 self.now) }
        ensures bytes { OnOk result (length (footer_bytes_v0 self.now) ≡ length_of_v0 self.now) }
        ensures errors { IfErr result StopsWriting }
        ensures frame { Called W.tells W.faults sink.old sink.new (IsErrOf result (Io Output)) }
    {
        buffer.put_all(
            sink,
            &[
                &self.ident,
                &[self.version],
                self.xorb_hash.as_bytes(),
                &self.num_chunks.to_le_bytes(),
            ],
        )?;
        buffer.put_numbers(sink, self.chunk_boundary_offsets.as_slice())?;
        buffer.put_hashes(sink, self.chunk_hashes.as_slice())?;
        buffer.put(sink, &self.spare)
    }
}

impl XorbObjectInfoV1 {
    /// Writes the footer, and returns the number of bytes. Fails with `MalformedData(ListLength)`, before
    /// anything is written, if a list does not have as many items as there are chunks. If the sink fails, a
    /// prefix was written.
    pub fn serialize<W: Sink>(&self, sink: &mut W) -> Result<usize, StoreError>
        requires { HasShortLists self.now }
        ensures lists { (HasLists self.now → ⊥) → IsErrOf result (MalformedData ListLength) }
        ensures written { W.tells sink.old ≡ true → OnOk result (W.written sink.new ≡ W.written sink.old ++ footer_bytes_v1 self.now) }
        ensures bytes { IfOk result (λ n. n ≡ length (footer_bytes_v1 self.now)) }
        ensures length { IfOk result (λ n. n ≡ length_of self.now) }
        ensures nothing { W.tells sink.old ≡ true → IsErrOf result (MalformedData ListLength) → W.written sink.new ≡ W.written sink.old }
        ensures prefix { W.tells sink.old ≡ true → (n : ℕ) × (W.written sink.new ≡ W.written sink.old ++ take n (footer_bytes_v1 self.now)) }
        ensures refused { IfErr result (λ e. (e ≡ Io Output) ⊎ (e ≡ OutOfMemory) ⊎ ((e ≡ MalformedData ListLength) × (HasLists self.now → ⊥))) }
        ensures frame { Called W.tells W.faults sink.old sink.new (IsErrOf result (Io Output)) }
    {
        if !has_lists(self) {
            return Err(StoreError::MalformedData(Reason::ListLength));
        }
        let mut buffer = Buffer::new();
        self.put(&mut buffer, sink)?;
        buffer.flush(sink)?;
        Ok(self.serialized_length())
    }

    /// Writes the footer, with its lists as they are, through a buffer.
    fn put<W: Sink>(&self, buffer: &mut Buffer, sink: &mut W) -> Result<(), StoreError>
        ensures puts { W.tells sink.old ≡ true → Puts result (W.written sink.old) (W.written sink.new) (buffered_in buffer.new) (buffered_in buffer.old ++ footer_bytes_v1 self.now) }
        ensures bytes { OnOk result (length (footer_bytes_v1 self.now) ≡ length_of self.now) }
        ensures errors { IfErr result StopsWriting }
        ensures frame { Called W.tells W.faults sink.old sink.new (IsErrOf result (Io Output)) }
    {
        let count = self.num_chunks.to_le_bytes();
        let hash = self.xorb_hash.as_bytes();
        let hashes_at = self.hashes_section_offset_from_end.to_le_bytes();
        let boundaries_at = self.boundary_section_offset_from_end.to_le_bytes();
        buffer.put_all(
            sink,
            &[
                &self.ident,
                &[self.version],
                hash,
                &self.ident_hash_section,
                &[self.hashes_version],
                &count,
            ],
        )?;
        buffer.put_hashes(sink, self.chunk_hashes.as_slice())?;
        buffer.put_all(
            sink,
            &[
                &self.ident_boundary_section,
                &[self.boundaries_version],
                &count,
            ],
        )?;
        buffer.put_numbers(sink, self.chunk_boundary_offsets.as_slice())?;
        buffer.put_numbers(sink, self.unpacked_chunk_offsets.as_slice())?;
        buffer.put_all(sink, &[&count, &hashes_at, &boundaries_at, &self.spare])
    }
}

/// Whether each list has as many items as there are chunks.
fn has_lists(info: &XorbObjectInfoV1) -> bool
    ensures { IsTrue result ↔ HasLists info.now }
{
    let count = info.num_chunks as usize;
    info.chunk_hashes.as_slice().len() == count
        && info.chunk_boundary_offsets.as_slice().len() == count
        && info.unpacked_chunk_offsets.as_slice().len() == count
}
