//! An arena over a given text, of which each token is the next piece.
ghost use Rattle.std.specs.Prelude.{◌≡◌, ◌+◌, ◌≤◌, ◌<◌, ◌^◌, ◌++◌, [], ◌∷◌, length, IsCharBoundary, IfOk, OnOk, OnErr, string_bytes};
ghost use Rattle.rowan_green.specs.Arena.{IsGrowing, piece, items_in, terms_at, terms_over};
ghost use Rattle.rowan_green.specs.declared.utility_types.NodeOrToken.TheVariants.{Token};

use crate::arena::{Arena, Entry, Record};
use std::alloc::{AllocError, Global};

/// The maximum number of records.
const MOST: usize = u32::MAX as usize;

impl Arena {
    /// Creates an arena with the text `text` and without tokens.
    pub(crate) fn over(alloc: Global, text: &str) -> Result<Arena, AllocError>
        requires { length text.now < 2 ^ 32 }
        ensures growing { IfOk result (λ a. IsGrowing a []) }
        ensures text { IfOk result (λ a. string_bytes a.text ≡ text.now) }
        ensures used { IfOk result (λ a. a.used ≡ 0) }
    {
        Ok(Arena {
            text: String::from_str(alloc, text)?,
            entries: Vec::new(alloc),
            records: Vec::new(alloc),
            used: 0,
        })
    }

    /// Appends a token, whose text is the next `len` bytes of the text: its entry to `done`, the
    /// entries that have no parent yet.
    ///
    /// # Errors
    ///
    /// [`AllocError`] if an allocation fails, or if the arena would hold 2^32 records.
    ///
    /// On error, the terms are unchanged.
    #[inline(always)]
    pub(crate) fn push_piece(
        &mut self,
        done: &mut Vec<Entry>,
        kind: u16,
        len: usize,
    ) -> Result<(), AllocError>
        requires growing { IsGrowing self.old done.old.items }
        requires cut { IsCharBoundary (string_bytes self.old.text) (self.old.used + len) }
        ensures growing { IsGrowing self.new done.new.items }
        ensures text { string_bytes self.new.text ≡ string_bytes self.old.text }
        ensures used { OnOk result (self.new.used ≡ self.old.used + len) }
        ensures ok { OnOk result (terms_over self.new done.new.items
            ≡ terms_over self.old done.old.items ++ Token (record {
              kind = kind;
              text = piece (string_bytes self.old.text) self.old.used len;
            }) ∷ []) }
        ensures same { OnErr result (self.new.used ≡ self.old.used) }
        ensures err { OnErr result
            (terms_over self.new done.new.items ≡ terms_over self.old done.old.items) }
        ensures kept { OnErr result (terms_at (items_in self.new) ≡ terms_at (items_in self.old)) }
    {
        if len < 256 {
            self.push_short_piece(done, kind, len)
        } else {
            self.push_long_piece(done, kind, len)
        }
    }

    /// Appends a token of less than 256 bytes.
    #[inline(always)]
    fn push_short_piece(
        &mut self,
        done: &mut Vec<Entry>,
        kind: u16,
        len: usize,
    ) -> Result<(), AllocError>
        requires growing { IsGrowing self.old done.old.items }
        requires cut { IsCharBoundary (string_bytes self.old.text) (self.old.used + len) }
        requires short { len < 256 }
        ensures growing { IsGrowing self.new done.new.items }
        ensures text { string_bytes self.new.text ≡ string_bytes self.old.text }
        ensures used { OnOk result (self.new.used ≡ self.old.used + len) }
        ensures ok { OnOk result (terms_over self.new done.new.items
            ≡ terms_over self.old done.old.items ++ Token (record {
              kind = kind;
              text = piece (string_bytes self.old.text) self.old.used len;
            }) ∷ []) }
        ensures same { OnErr result (self.new.used ≡ self.old.used) }
        ensures err { OnErr result
            (terms_over self.new done.new.items ≡ terms_over self.old done.old.items) }
        ensures kept { OnErr result (terms_at (items_in self.new) ≡ terms_at (items_in self.old)) }
    {
        let start = self.used;
        let end = self.end_after(done, len);
        done.push(Entry::Short(len as u8, kind, start))?;
        self.used = end;
        Ok(())
    }

    /// Appends a token with a record.
    #[cold]
    #[inline(never)]
    fn push_long_piece(
        &mut self,
        done: &mut Vec<Entry>,
        kind: u16,
        len: usize,
    ) -> Result<(), AllocError>
        requires growing { IsGrowing self.old done.old.items }
        requires cut { IsCharBoundary (string_bytes self.old.text) (self.old.used + len) }
        ensures growing { IsGrowing self.new done.new.items }
        ensures text { string_bytes self.new.text ≡ string_bytes self.old.text }
        ensures used { OnOk result (self.new.used ≡ self.old.used + len) }
        ensures ok { OnOk result (terms_over self.new done.new.items
            ≡ terms_over self.old done.old.items ++ Token (record {
              kind = kind;
              text = piece (string_bytes self.old.text) self.old.used len;
            }) ∷ []) }
        ensures same { OnErr result (self.new.used ≡ self.old.used) }
        ensures err { OnErr result
            (terms_over self.new done.new.items ≡ terms_over self.old done.old.items) }
        ensures kept { OnErr result (terms_at (items_in self.new) ≡ terms_at (items_in self.old)) }
    {
        let number = self.records.len();
        if number >= MOST {
            return Err(AllocError);
        }
        let end = self.end_after(done, len);
        done.reserve(1)?;
        self.records.reserve(1)?;
        let record = Record {
            start: self.used,
            len: end - self.used,
            first: 0,
            count: 0,
        };
        self.records.push(record)?;
        done.push(Entry::Long(kind, number as u32))?;
        self.used = end;
        Ok(())
    }

    /// Returns the offset at which the next `len` bytes of the text end.
    #[inline(always)]
    fn end_after(&self, done: &[Entry], len: usize) -> u32
        requires growing { IsGrowing self.now done.now }
        requires cut { IsCharBoundary (string_bytes self.now.text) (self.now.used + len) }
        ensures { result ≡ self.now.used + len }
    {
        self.used + len as u32
    }
}
