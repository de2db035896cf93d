//! Payloads of a document: texts that are read as the document's own text is.
ghost use Rattle.std.specs.Prelude.{◌≡◌, ◌+◌, IfOk, IfErr, OnOk};
ghost use Rattle.syntax_tree.specs.Handle.{element_of};
ghost use Rattle.rust_document.specs.Payload.{payload_in, IsDetached, RefusesPayload};

use super::Document;
use crate::error::PayloadError;
use crate::payload_entry::{PayloadEntry, PayloadText, payload_by};
use std::alloc::Global;
use syntax_tree::{SyntaxElement, TreeIds};

impl Document {
    /// Parses `text` as a new element for an editor, by the edition and the grammar of the
    /// document: the tree of an entry, or a token as the only child of a new root. The new tree has
    /// the next number of `ids`.
    ///
    /// # Errors
    ///
    /// As of [`payload`](crate::payload()): [`PayloadError::TooLong`], [`PayloadError::Message`],
    /// [`PayloadError::NotOneToken`], then [`PayloadError::NoTreeNumber`], and
    /// [`PayloadError::NoMemory`] if an allocation fails.
    ///
    /// On error, `ids` is unchanged.
    pub fn payload(
        &self,
        alloc: Global,
        entry: PayloadEntry,
        text: &str,
        ids: &mut TreeIds,
    ) -> Result<SyntaxElement, PayloadError>
        ensures given { IfOk result (λ e. IsDetached ids.old
            (payload_in entry self.now.grammar self.now.edition text.now) (element_of e)) }
        ensures number { OnOk result (ids.new ≡ ids.old + 1) }
        ensures refused { IfErr result (RefusesPayload ids.old
            (payload_in entry self.now.grammar self.now.edition text.now)) }
        ensures kept { IfErr result (λ _. ids.new ≡ ids.old) }
    {
        let text = PayloadText {
            grammar: self.grammar(),
            edition: self.edition(),
            text,
        };
        payload_by(alloc, entry, text, ids)
    }
}
