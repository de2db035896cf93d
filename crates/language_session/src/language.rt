//! Who knows what to say of a text.

ghost use Rattle.std.specs.Prelude.{◌≡◌, ◌≤◌, IfOk, List, length, map, ℕ};
ghost use Rattle.session_words.specs.Changes.{MAX_TEXT};
ghost use Rattle.session_words.specs.Replies.{Shown, shown_of};
ghost use Rattle.session_words.specs.declared.facts.Facts.{Facts};

use session_words::{Diagnostic, Facts};
use std::alloc::{AllocError, Global};

/// A language whose texts are read.
///
/// Model: the messages about a text, by what the client asks for.
pub trait Language {
    ghost messages: { Self → Facts → List ℕ → List Shown };

    /// Returns the messages about a text of at most 16,777,216 bytes.
    ///
    /// # Errors
    ///
    /// Out of memory.
    fn messages(
        &self,
        alloc: Global,
        facts: &Facts,
        text: &str,
    ) -> Result<Vec<Diagnostic>, AllocError>
        requires { length text.now ≤ MAX_TEXT }
        ensures { IfOk result (λ list. map shown_of list.items
            ≡ messages self.now facts.now text.now) };
}
