//! New tokens, which are not in an edited tree yet.
ghost use Rattle.std.specs.Prelude.{◌≡◌, ◌+◌, [], ◌∷◌, IfOk, IfErr, OnOk};
ghost use Rattle.parser_input.specs.Kind.{raw_of};
ghost use Rattle.parser_input.specs.Kinds.{TOMBSTONE, WHITESPACE};
ghost use Rattle.rowan_green.specs.Term.{tree_of};
ghost use Rattle.rowan_green.specs.declared.utility_types.NodeOrToken.TheVariants.{Token};
ghost use Rattle.syntax_tree.specs.Element.{element_at};
ghost use Rattle.syntax_editor.specs.Making.{RefusesMake};

use crate::make_error::MakeError;
use parser_input::SyntaxKind;
use rowan_green::{GreenError, GreenToken};
use std::alloc::Global;
use syntax_tree::{SyntaxToken, TreeIds};

/// A factory of tokens to be inserted into trees.
#[derive(Debug, Drop)]
pub struct SyntaxFactory;

/// The factory that editors return a reference to.
pub(crate) static FACTORY: SyntaxFactory = SyntaxFactory;

impl SyntaxFactory {
    /// Returns a whitespace token in a new tree, whose number is the next of `ids`.
    ///
    /// # Errors
    ///
    /// - [`MakeError::TooLong`] if `text` has 2^32 bytes or more.
    /// - [`MakeError::NoTreeNumber`] if no tree number is left.
    /// - [`MakeError::NoMemory`] if an allocation fails.
    ///
    /// On error, `ids` is unchanged.
    pub fn whitespace(
        &self,
        alloc: Global,
        text: &str,
        ids: &mut TreeIds,
    ) -> Result<SyntaxToken, MakeError>
        ensures ok { IfOk result (λ t. t ≡ element_at ids.old
            (tree_of TOMBSTONE (Token (record { kind = WHITESPACE; text = text.now }) ∷ []))
            (0 ∷ [])) }
        ensures number { OnOk result (ids.new ≡ ids.old + 1) }
        ensures refused { IfErr result (RefusesMake text.now ids.old) }
        ensures kept { IfErr result (λ _. ids.new ≡ ids.old) }
    {
        self.token(alloc, SyntaxKind::WHITESPACE, text, ids)
    }

    /// Returns a token of this kind in a new tree, whose number is the next of `ids`.
    ///
    /// # Errors
    ///
    /// - [`MakeError::TooLong`] if `text` has 2^32 bytes or more.
    /// - [`MakeError::NoTreeNumber`] if no tree number is left.
    /// - [`MakeError::NoMemory`] if an allocation fails.
    ///
    /// On error, `ids` is unchanged.
    pub fn token(
        &self,
        alloc: Global,
        kind: SyntaxKind,
        text: &str,
        ids: &mut TreeIds,
    ) -> Result<SyntaxToken, MakeError>
        ensures ok { IfOk result (λ t. t ≡ element_at ids.old
            (tree_of TOMBSTONE (Token (record { kind = raw_of kind; text = text.now }) ∷ []))
            (0 ∷ [])) }
        ensures number { OnOk result (ids.new ≡ ids.old + 1) }
        ensures refused { IfErr result (RefusesMake text.now ids.old) }
        ensures kept { IfErr result (λ _. ids.new ≡ ids.old) }
    {
        let raw = rowan_green::SyntaxKind(kind.to_raw());
        let green = match GreenToken::new(alloc, raw, text) {
            Ok(green) => green,
            Err(GreenError::NoMemory) => return Err(MakeError::NoMemory),
            Err(GreenError::TooLong) => return Err(MakeError::TooLong),
            Err(GreenError::Unbalanced) => unreachable!(),
        };
        Ok(SyntaxToken::detached(alloc, green, ids)?)
    }
}
