//! Incremental decoder of a footer and its length, which arrive in parts.

ghost use Rattle.std.specs.Prelude.{◌≡◌, ◌≤◌, ◌<◌, ◌+◌, ◌⊎◌, ◌++◌, true, IfErr, IfOk, OnOk, drop, length, take};
ghost use Rattle.xet_xorb_footer.specs.Joining.{IsReady, joined_wanted};

use crate::info::XorbObjectInfoV1;
use crate::lists::number_of;
use crate::machine::FooterReader;
use std::alloc::Global;
use xet_hash::{Reason, StoreError};

/// Size of the field that holds a footer's length, in bytes.
const LENGTH_SIZE: usize = 4;

/// Progress of reading a footer and its length.
#[derive(Drop)]
pub(crate) struct Joined {
    footer: FooterReader,
    /// Number of bytes of the footer read so far.
    count: u32,
    /// Whether the length was read.
    ended: bool,
}

impl Joined {
    ghost use Rattle.std.specs.Prelude.{◌≡◌, ◌≤◌, ◌<◌, ◌+◌, ◌++◌, [], List, ℕ, false, IfErr, IfOk, OnOk, drop, length};
    ghost use Rattle.std.specs.Int.{w32, from_le_bytes};
    ghost use Rattle.xet_xorb_footer.specs.Ends.{whole_footer};
    ghost use Rattle.xet_xorb_footer.specs.Joining.{IsReady, IsWholeError, joined_wanted, rest_whole};
    ghost use Rattle.xet_xorb_footer.specs.internal.Joining.{ReadsUpTo, Stops};
    ghost use Rattle.xet_xorb_footer.specs.Reader.{bytes_wanted};

    /// Nothing was read. Does not allocate.
    fn new(alloc: Global) -> Joined
        ensures rest { (bytes : List ℕ) → whole_footer bytes ≡ rest_whole result (length bytes) bytes }
        ensures ready { IsReady result }
        ensures count { result.count ≡ 0 }
        ensures ended { result.ended ≡ false }
    {
        Joined {
            footer: FooterReader::of_either(alloc, 0),
            count: 0,
            ended: false,
        }
    }

    /// Number of bytes of the next field. After the length it is 1, for a trailing byte, which is rejected.
    fn wanted(&self) -> usize
        ensures { result ≡ joined_wanted self.now }
    {
        if self.ended {
            return 1;
        }
        match self.footer.wanted() {
            0 => LENGTH_SIZE,
            wanted => wanted,
        }
    }

    /// Consumes the next field, which must be complete.
    fn take(&mut self, field: &[u8]) -> Result<(), StoreError>
        requires ready { IsReady self.old }
        requires len { length field.now ≡ joined_wanted self.old }
        ensures read { OnOk result (ReadsUpTo self.old self.new field.now []) }
        ensures ready { OnOk result (IsReady self.new) }
        ensures refused { IfErr result (Stops self.old field.now) }
        ensures kinds { IfErr result IsWholeError }
    {
        if self.ended {
            return Err(StoreError::MalformedData(Reason::TrailingBytes));
        }
        if self.footer.wanted() == 0 {
            return self.take_length(field);
        }
        self.footer.take(field)?;
        self.count += field.len() as u32;
        Ok(())
    }

    /// Consumes the length of the footer, once the footer is complete.
    fn take_length(&mut self, field: &[u8]) -> Result<(), StoreError>
        requires ready { IsReady self.old }
        requires ended { self.old.ended ≡ false }
        requires whole { bytes_wanted self.old.footer ≡ 0 }
        requires len { length field.now ≡ 4 }
        ensures read { OnOk result (ReadsUpTo self.old self.new field.now []) }
        ensures ready { OnOk result (IsReady self.new) }
        ensures refused { IfErr result (Stops self.old field.now) }
        ensures kinds { IfErr result IsWholeError }
    {
        if number_of(field) != self.count {
            return Err(StoreError::MalformedData(Reason::InfoLength));
        }
        self.ended = true;
        Ok(())
    }

    /// Consumes the complete fields at the start of `piece`, without buffering them, and returns their number
    /// of bytes.
    fn take_whole(&mut self, piece: &[u8]) -> Result<usize, StoreError>
        requires { IsReady self.old }
        ensures within { IfOk result (λ n. n ≤ length piece.now) }
        ensures read { IfOk result (λ n. ReadsUpTo self.old self.new piece.now (drop n piece.now)) }
        ensures short { IfOk result (λ n. length (drop n piece.now) < joined_wanted self.new) }
        ensures ready { OnOk result (IsReady self.new) }
        ensures refused { IfErr result (Stops self.old piece.now) }
        ensures kinds { IfErr result IsWholeError }
    {
        let mut at = 0;
        'fields: while piece.len() - at >= self.wanted() {
            let to = at + self.wanted();
            self.take(&piece[at..to])?;
            at = to;
        }
        Ok(at)
    }

    /// Completes the buffered field from the start of `piece`, and consumes it once it is complete. Returns
    /// the number of bytes added: all of `piece` if the field is still incomplete.
    fn complete(&mut self, held: &mut Vec<u8>, piece: &[u8]) -> Result<usize, StoreError>
        requires ready { IsReady self.old }
        requires short { length held.old.items < joined_wanted self.old }
        ensures within { IfOk result (λ n. n ≤ length piece.now) }
        ensures read { IfOk result (λ n. ReadsUpTo self.old self.new (held.old.items ++ piece.now) (held.new.items ++ drop n piece.now)) }
        ensures short { OnOk result (length held.new.items < joined_wanted self.new) }
        ensures rest { IfOk result (λ n. n < length piece.now → held.new.items ≡ []) }
        ensures ready { OnOk result (IsReady self.new) }
        ensures refused { IfErr result (Stops self.old (held.old.items ++ piece.now)) }
        ensures kinds { IfErr result IsWholeError }
    {
        let wanted = self.wanted();
        let added = piece.len().min(wanted - held.len());
        held.extend_from_slice(&piece[..added])?;
        if held.len() < wanted {
            return Ok(added);
        }
        self.take(held)?;
        held.clear();
        Ok(added)
    }
}

/// Incremental decoder of a footer and its length, in four bytes after it, which arrive in parts of any
/// lengths.
#[derive(Drop)]
pub struct InfoDecoder {
    joined: Joined,
    /// Buffered bytes of the next field.
    held: Vec<u8>,
    /// No call has failed.
    whole: bool,
    ghost ready: { whole ≡ true → IsReady joined },
    ghost short: { whole ≡ true → length held.items < joined_wanted joined },
}

impl InfoDecoder {
    ghost use Rattle.std.specs.Prelude.{◌≡◌, ◌<◌, ◌⊎◌, ◌↔◌, ◌++◌, [], List, ℕ, Err, Ok, true, false, IfErr, IfOk, IsOk, IsTrue, OnOk};
    ghost use Rattle.xet_hash.specs.declared.error.StoreError.TheVariants.{UnexpectedEof};
    ghost use Rattle.xet_xorb_footer.specs.Decoder.{WasFedFooter, FailsPart, is_footer_intact};
    ghost use Rattle.xet_xorb_footer.specs.Ends.{whole_footer};
    ghost use Rattle.xet_xorb_footer.specs.Joining.{IsReady, IsWholeError, joined_wanted};
    ghost use Rattle.xet_xorb_footer.specs.internal.Joining.{ReadsUpTo, Stops};

    /// A decoder to which nothing was fed. Does not allocate.
    pub fn new(alloc: Global) -> InfoDecoder
        ensures whole { is_footer_intact result ≡ true }
        ensures holds { WasFedFooter result [] }
    {
        InfoDecoder {
            joined: Joined::new(alloc),
            held: Vec::new(alloc),
            whole: true,
        }
    }

    /// Whether no call has failed. A decoder that has failed must not be used further.
    pub fn is_whole(&self) -> bool
        ensures { result ≡ is_footer_intact self.now }
    {
        self.whole
    }

    /// Decodes the next part. After an error nothing may be fed.
    ///
    /// Fails with the error of the first check that fails, as soon as it is decided: `InfoLength` with the
    /// fourth byte of a wrong length, `TrailingBytes` with the first byte after the length. The other error
    /// is `OutOfMemory`.
    pub fn feed(&mut self, piece: &[u8]) -> Result<(), StoreError>
        requires { is_footer_intact self.old ≡ true }
        ensures fed { OnOk result ((bytes : List ℕ) → WasFedFooter self.old bytes → WasFedFooter self.new (bytes ++ piece.now)) }
        ensures refused { IfErr result (FailsPart self.old piece.now) }
        ensures kinds { IfErr result IsWholeError }
        ensures whole { IsTrue (is_footer_intact self.new) ↔ IsOk result }
    {
        self.whole = false;
        self.absorb(piece)?;
        self.whole = true;
        Ok(())
    }

    /// `feed` without the bookkeeping of errors: the caller sets `whole`.
    fn absorb(&mut self, piece: &[u8]) -> Result<(), StoreError>
        requires refused { self.old.whole ≡ false }
        requires ready { IsReady self.old.joined }
        requires short { length self.old.held.items < joined_wanted self.old.joined }
        ensures read { OnOk result (ReadsUpTo self.old.joined self.new.joined (self.old.held.items ++ piece.now) self.new.held.items) }
        ensures ready { OnOk result (IsReady self.new.joined) }
        ensures short { OnOk result (length self.new.held.items < joined_wanted self.new.joined) }
        ensures stopped { IfErr result (Stops self.old.joined (self.old.held.items ++ piece.now)) }
        ensures kinds { IfErr result IsWholeError }
        ensures whole { self.new.whole ≡ false }
    {
        if self.held.is_empty() {
            return self.take_whole(piece);
        }
        let added = self.joined.complete(&mut self.held, piece)?;
        if added == piece.len() {
            return Ok(());
        }
        self.take_whole(&piece[added..])
    }

    /// Decodes the next part when nothing is buffered: consumes its complete fields, and buffers the rest.
    fn take_whole(&mut self, piece: &[u8]) -> Result<(), StoreError>
        requires refused { self.old.whole ≡ false }
        requires ready { IsReady self.old.joined }
        requires empty { self.old.held.items ≡ [] }
        ensures read { OnOk result (ReadsUpTo self.old.joined self.new.joined piece.now self.new.held.items) }
        ensures ready { OnOk result (IsReady self.new.joined) }
        ensures short { OnOk result (length self.new.held.items < joined_wanted self.new.joined) }
        ensures stopped { IfErr result (Stops self.old.joined piece.now) }
        ensures kinds { IfErr result IsWholeError }
        ensures whole { self.new.whole ≡ false }
    {
        let taken = self.joined.take_whole(piece)?;
        self.held.extend_from_slice(&piece[taken..])?;
        Ok(())
    }

    /// Ends the input. Returns the footer and its length in bytes. Fails with `UnexpectedEof` if the input
    /// ended before the end of the length.
    pub fn finish(self) -> Result<(XorbObjectInfoV1, u32), StoreError>
        requires { is_footer_intact self ≡ true }
        ensures read { IfOk result (λ x. (bytes : List ℕ) → WasFedFooter self bytes → whole_footer bytes ≡ Ok (x.0, x.1)) }
        ensures refused { IfErr result (λ e. (bytes : List ℕ) → WasFedFooter self bytes → whole_footer bytes ≡ Err e) }
        ensures kinds { IfErr result (λ e. e ≡ UnexpectedEof) }
    {
        if !self.joined.ended {
            return Err(StoreError::UnexpectedEof);
        }
        let InfoDecoder { joined, .. } = self;
        let Joined { footer, count, .. } = joined;
        Ok((footer.into_v1(), count))
    }
}
