//! Incremental decoder of a footer that returns a `XorbObject`.

ghost use Rattle.std.specs.Prelude.{◌≡◌, ◌↔◌, ◌++◌, [], List, ℕ, Ok, Err, true, IfErr, IfOk, IsOk, IsTrue, OnOk};
ghost use Rattle.xet_hash.specs.declared.error.StoreError.TheVariants.{UnexpectedEof};
ghost use Rattle.xet_xorb_footer.specs.Decoder.{WasFedFooter, FailsPart, is_footer_intact};
ghost use Rattle.xet_xorb_footer.specs.Ends.{whole_footer};
ghost use Rattle.xet_xorb_footer.specs.Joining.{IsWholeError};

use crate::object::XorbObject;
use std::alloc::Global;
use std::marker::Model;
use xet_hash::StoreError;

/// Incremental decoder of a footer and its length, which arrive in parts of any lengths.
#[derive(Drop)]
pub struct FooterDecoder {
    decoder: xet_xorb_footer::InfoDecoder,
}

impl Model for FooterDecoder {
    ghost use Rattle.xet_xorb_footer.specs.declared.decoder.InfoDecoder.{InfoDecoder as Decoder};

    ghost Value = { Decoder };

    ghost view = { λ d. d.decoder };
}

impl FooterDecoder {
    /// A decoder to which nothing was fed. Does not allocate.
    pub fn new(alloc: Global) -> FooterDecoder
        ensures whole { is_footer_intact result ≡ true }
        ensures holds { WasFedFooter result [] }
    {
        FooterDecoder {
            decoder: xet_xorb_footer::InfoDecoder::new(alloc),
        }
    }

    /// Whether no call has failed. A decoder that has failed must not be used further.
    pub fn is_whole(&self) -> bool
        ensures { result ≡ is_footer_intact self.now }
    {
        self.decoder.is_whole()
    }

    /// Decodes the next part. After an error nothing may be fed.
    ///
    /// Fails with the error of the first check that fails, as soon as it is decided: `InfoLength` with the
    /// fourth byte of a wrong length, `TrailingBytes` with the first byte after the length. The other error
    /// is `OutOfMemory`.
    pub fn feed(&mut self, piece: &[u8]) -> Result<(), StoreError>
        requires { is_footer_intact self.old ≡ true }
        ensures fed { OnOk result ((bytes : List ℕ) → WasFedFooter self.old bytes → WasFedFooter self.new (bytes ++ piece.now)) }
        ensures refused { IfErr result (FailsPart self.old piece.now) }
        ensures kinds { IfErr result IsWholeError }
        ensures whole { IsTrue (is_footer_intact self.new) ↔ IsOk result }
    {
        self.decoder.feed(piece)
    }

    /// Ends the input, and returns the footer with its length. Fails with `UnexpectedEof` if the input ended
    /// before the end of the length.
    pub fn finish(self) -> Result<XorbObject, StoreError>
        requires { is_footer_intact self ≡ true }
        ensures read { IfOk result (λ o. (bytes : List ℕ) → WasFedFooter self bytes → whole_footer bytes ≡ Ok (o.info, o.info_length)) }
        ensures refused { IfErr result (λ e. (bytes : List ℕ) → WasFedFooter self bytes → whole_footer bytes ≡ Err e) }
        ensures kinds { IfErr result (λ e. e ≡ UnexpectedEof) }
    {
        let (info, info_length) = self.decoder.finish()?;
        Ok(XorbObject { info, info_length })
    }
}
