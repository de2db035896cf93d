//! Tokens: a kind and a text, shared by all owners of the token.
ghost use Rattle.std.specs.Prelude.{◌≡◌, length, IfOk, IfErr, OnOk};
ghost use Rattle.rowan_green.specs.Term.{FitsToken};
ghost use Rattle.rowan_green.specs.Refusal.{RefusesUnless};

use crate::arena::Arena;
use crate::error::GreenError;
use crate::syntax_kind::SyntaxKind;
use crate::text_size::TextSize;
use std::alloc::{AllocError, Global};
use std::hash::{Hash, Hasher};
use std::marker::Model;
use std::rc::Rc;

/// A token of a green tree: an entry of an arena. A clone shares the arena; cloning does not
/// allocate. A token of a built tree keeps the whole tree alive.
#[derive(Drop)]
pub struct GreenToken {
    pub(crate) index: u32,
    pub(crate) arena: Rc<Arena>,
}

const _: () = prove!(size_of::<GreenToken>() == 16);

impl Model for GreenToken {
    ghost use Rattle.rowan_green.specs.Leaf.{Leaf};

    ghost Value = { Leaf };

    ghost use Rattle.rowan_green.specs.FlatRef.{IsTokenAt, leaf_at};

    ghost view = { λ t. leaf_at t.arena.value t.index };

    ghost invariant = { λ t. IsTokenAt t.arena.value t.index };
}

impl GreenToken {
    /// Creates a token with its own arena.
    ///
    /// # Errors
    ///
    /// - [`GreenError::TooLong`] if `text` has 2^32 bytes or more.
    /// - [`GreenError::NoMemory`] if an allocation fails.
    pub fn new(alloc: Global, kind: SyntaxKind, text: &str) -> Result<GreenToken, GreenError>
        ensures ok { IfOk result (λ t. t ≡ record { kind = kind.0; text = text.now }) }
        ensures fits { OnOk result (FitsToken text.now) }
        ensures refused { IfErr result (RefusesUnless (FitsToken text.now)) }
    {
        if text.len() > u32::MAX as usize {
            return Err(GreenError::TooLong);
        }
        let mut arena = Arena::new(alloc);
        let mut done = Vec::new(alloc);
        arena.push_token(&mut done, kind.0, text)?;
        let index = arena.push_root(&done, 0)?;
        arena.shrink();
        let arena = Rc::new(alloc, arena)?;
        Ok(GreenToken { index, arena })
    }

    /// Returns the kind.
    pub fn kind(&self) -> SyntaxKind
        ensures { result.0 ≡ self.now.kind }
    {
        self.as_ref().kind()
    }

    /// Returns the text.
    pub fn text(&self) -> &str
        ensures { result.now ≡ self.now.text }
    {
        self.as_ref().text()
    }

    /// Returns the length of the text, in bytes.
    pub fn text_len(&self) -> TextSize
        ensures { result.0 ≡ length self.now.text }
    {
        self.as_ref().text_len()
    }
}

impl Clone for GreenToken {
    ghost is_clone = { λ t copy. copy ≡ t };

    /// Returns another reference to the token.
    ///
    /// # Errors
    ///
    /// [`AllocError`] if the reference count overflows.
    fn clone(&self) -> Result<GreenToken, AllocError> {
        self.as_ref().to_owned()
    }
}

impl PartialEq for GreenToken {
    ghost use Rattle.rowan_green.specs.Leaf.{same_leaf};
    ghost use Rattle.rowan_green.specs.Same.{same_leaf-equiv};
    ghost use Rattle.std.specs.Cmp.{partial_equiv_from_equiv};

    ghost eq = { same_leaf };

    ghost laws = { partial_equiv_from_equiv same_leaf-equiv };

    fn eq(&self, other: &GreenToken) -> bool {
        self.as_ref() == other.as_ref()
    }
}

impl Eq for GreenToken {
    ghost use Rattle.rowan_green.specs.Same.{same_leaf-equiv};

    ghost laws = { same_leaf-equiv };
}

impl Hash for GreenToken {
    ghost use Rattle.rowan_green.specs.Leaf.{Leaf};
    ghost use Rattle.rowan_green.specs.Same.{same_leaf-Decides};
    ghost use Rattle.std.specs.Prelude.{◌++◌};
    ghost use Rattle.std.specs.Hash as fed;
    ghost use Rattle.std.proofs.Common.{ap};

    ghost hash_input = { λ t. fed.u16 t.kind ++ fed.str t.text };

    ghost respects_eq = { λ x y p. ap (λ (t : Leaf). fed.u16 t.kind ++ fed.str t.text) ((same_leaf-Decides x y).0 p) };

    fn hash<H: Hasher>(&self, state: &mut H) {
        self.kind().0.hash(state);
        self.text().hash(state);
    }
}
