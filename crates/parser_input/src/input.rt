//! The input of the parser: the tokens of a text without their texts.

ghost use Rattle.std.specs.Prelude.{◌≡◌, ◌≢◌, ◌<◌, ◌≤◌, [], ◌∷◌, ◌++◌, List, length, drop, is_ok, IfOk};
ghost use Rattle.parser_input.specs.Input.{Token};
ghost use Rattle.parser_input.specs.Kind.{raw_of};
ghost use Rattle.parser_input.specs.Kinds as kinds;
ghost use Rattle.parser_input.specs.Recorded.{plain, identifier, token, tokens_with, touching, token_at, pipe};

use crate::syntax_kind::SyntaxKind;
use std::alloc::{AllocError, Global};
use std::marker::Model;

/// A token of the input; four bytes.
#[derive(Clone, Copy)]
struct InputToken {
    kind: SyntaxKind,
    /// The kind of an identifier as a contextual keyword, or `IDENT`; `PIPE_GT` for the `|` of the
    /// operator `|>`; `EOF` for any other token.
    contextual_kind: SyntaxKind,
    /// `true` if no trivia is between the token and the next one; for a float, `true` if its text
    /// does not end in a dot.
    joint: bool,
    /// `true` if the grammar of the whole language reads the token.
    whole: bool,
}

/// The input of the parser: the kinds of the tokens and their joint bits, without texts. Model: the
/// tokens.
#[derive(Drop)]
pub struct Input {
    tokens: Vec<InputToken>,
}

impl Model for Input {
    ghost use Rattle.std.specs.Prelude.{List, ◌≢◌, map};
    ghost use Rattle.std.specs.List.{All};
    ghost use Rattle.parser_input.specs.Input.{Token};

    ghost Value = { List Token };

    ghost use Rattle.parser_input.specs.Kind.{raw_of};
    ghost use Rattle.parser_input.specs.Kinds as kinds;
    ghost use Rattle.parser_input.specs.Packed.{seen};

    ghost view = { λ i. map seen i.tokens.items };

    ghost invariant = { λ i. All (λ t. raw_of t.kind ≢ kinds.EOF) i.tokens.items };
}

impl PartialEq for InputToken {
    ghost use Rattle.parser_input.specs.Equal.{same_seen, same_seen-equiv};
    ghost use Rattle.std.specs.Cmp.{partial_equiv_from_equiv};

    ghost eq = { same_seen };

    ghost laws = { partial_equiv_from_equiv same_seen-equiv };

    // (kinds are compared by their raw numbers, which contracts name)
    fn eq(&self, other: &InputToken) -> bool {
        self.kind.to_raw() == other.kind.to_raw()
            && self.contextual_kind.to_raw() == other.contextual_kind.to_raw()
            && self.joint == other.joint
            && self.whole == other.whole
    }
}

/// Two inputs are equal if they have the same tokens.
impl PartialEq for Input {
    ghost use Rattle.parser_input.specs.Equal.{same_input, same_input-equiv};
    ghost use Rattle.std.specs.Cmp.{partial_equiv_from_equiv};

    ghost eq = { same_input };

    ghost laws = { partial_equiv_from_equiv same_input-equiv };

    fn eq(&self, other: &Input) -> bool {
        self.tokens.as_slice() == other.tokens.as_slice()
    }
}

impl Eq for Input {
    ghost use Rattle.parser_input.specs.Equal.{same_input-equiv};

    ghost laws = { same_input-equiv };
}

impl Input {
    /// Creates an empty input. `capacity` is a hint: the expected number of tokens.
    ///
    /// # Errors
    ///
    /// [`AllocError`] if an allocation fails.
    pub fn with_capacity(alloc: Global, capacity: usize) -> Result<Input, AllocError>
        ensures { IfOk result (λ input. input ≡ []) }
    {
        let tokens = Vec::with_capacity(alloc, capacity)?;
        Ok(Input { tokens })
    }

    /// Appends a token with these properties.
    ///
    /// # Errors
    ///
    /// [`AllocError`] if an allocation fails. On error, `self` is unchanged.
    pub(crate) fn push_token(
        &mut self,
        kind: SyntaxKind,
        contextual_kind: SyntaxKind,
        joint: bool,
        whole: bool,
    ) -> Result<(), AllocError>
        requires { raw_of kind ≢ kinds.EOF }
        ensures { self.new ≡ tokens_with (is_ok result) self.old
            (token (raw_of kind) (raw_of contextual_kind) joint whole) }
    {
        let token = InputToken {
            kind,
            contextual_kind,
            joint,
            whole,
        };
        self.tokens.push(token)?;
        Ok(())
    }

    /// Appends a token that is not an identifier. It is not joint.
    ///
    /// # Errors
    ///
    /// [`AllocError`] if an allocation fails. On error, `self` is unchanged.
    pub fn push(&mut self, kind: SyntaxKind) -> Result<(), AllocError>
        requires { raw_of kind ≢ kinds.EOF }
        ensures { self.new ≡ tokens_with (is_ok result) self.old (plain (raw_of kind)) }
    {
        self.push_token(kind, SyntaxKind::EOF, false, false)
    }

    /// Appends an identifier with its kind as a contextual keyword, or `IDENT`. It is not joint.
    ///
    /// # Errors
    ///
    /// [`AllocError`] if an allocation fails. On error, `self` is unchanged.
    pub fn push_ident(&mut self, contextual_kind: SyntaxKind) -> Result<(), AllocError>
        ensures { self.new ≡ tokens_with (is_ok result) self.old
            (identifier (raw_of contextual_kind)) }
    {
        self.push_token(SyntaxKind::IDENT, contextual_kind, false, false)
    }

    /// Appends a `|` that is the first token of the operator `|>`. It is not joint.
    ///
    /// # Errors
    ///
    /// [`AllocError`] if an allocation fails. On error, `self` is unchanged.
    pub fn push_pipe(&mut self) -> Result<(), AllocError>
        ensures { self.new ≡ tokens_with (is_ok result) self.old pipe }
    {
        self.push_token(SyntaxKind::PIPE, SyntaxKind::PIPE_GT, false, false)
    }

    /// Sets the joint bit of the last token: the next token directly follows it. The input must not
    /// be empty.
    pub fn was_joint(&mut self)
        requires { 0 < length self.old }
        ensures { (front : List Token) (last : Token) → self.old ≡ front ++ last ∷ [] → self.new
            ≡ front ++ touching last ∷ [] }
    {
        let last = self.tokens.len() - 1;
        self.tokens[last].joint = true;
    }

    /// Returns the number of tokens.
    pub fn len(&self) -> usize
        ensures { result ≡ length self.now }
    {
        self.tokens().len()
    }

    /// Returns the kind of the token `n`; `EOF` past the end, and only there.
    pub fn kind(&self, n: usize) -> SyntaxKind
        ensures kind { raw_of result ≡ (token_at self.now n).kind }
        ensures token { n < length self.now → raw_of result ≢ kinds.EOF }
    {
        self.tokens().kind(n)
    }

    /// Returns the contextual kind of the token `n`: for an identifier, its kind as a contextual
    /// keyword, or `IDENT`; for the `|` of the operator `|>`, `PIPE_GT`. `EOF` for any other token
    /// and past the end.
    pub fn contextual_kind(&self, n: usize) -> SyntaxKind
        ensures { raw_of result ≡ (token_at self.now n).contextual }
    {
        self.tokens().contextual_kind(n)
    }

    /// Returns `true` if the token `n` is joint: the next token directly follows it, so that both
    /// may be one operator. A float is joint if its text does not end in a dot. Returns `false`
    /// past the end.
    pub fn is_joint(&self, n: usize) -> bool
        ensures { result ≡ (token_at self.now n).joint }
    {
        self.tokens().is_joint(n)
    }

    /// Returns `true` if the grammar of the whole language reads the token `n`; `false` past the
    /// end.
    pub fn is_whole(&self, n: usize) -> bool
        ensures { result ≡ (token_at self.now n).whole }
    {
        self.tokens().is_whole(n)
    }

    /// Returns all tokens, as the remaining tokens.
    pub fn tokens(&self) -> InputTokens<'_>
        ensures { result ≡ self.now }
    {
        InputTokens {
            tokens: &self.tokens,
        }
    }
}

/// The remaining tokens of an input. Model: the tokens.
pub struct InputTokens<'a> {
    tokens: &'a [InputToken],
}

impl Drop for InputTokens<'_> {
    fn drop(self) {
        let InputTokens { tokens: _ } = self;
    }
}

impl<'a> Model for InputTokens<'a> {
    ghost use Rattle.std.specs.Prelude.{List, ◌≢◌, map};
    ghost use Rattle.std.specs.List.{All};
    ghost use Rattle.parser_input.specs.Input.{Token};

    ghost Value = { List Token };

    ghost use Rattle.parser_input.specs.Kind.{raw_of};
    ghost use Rattle.parser_input.specs.Kinds as kinds;
    ghost use Rattle.parser_input.specs.Packed.{seen};

    ghost view = { λ i. map seen i.tokens.now };

    ghost invariant = { λ i. All (λ t. raw_of t.kind ≢ kinds.EOF) i.tokens.now };
}

impl InputTokens<'_> {
    /// Returns the number of remaining tokens.
    pub fn len(&self) -> usize
        ensures { result ≡ length self.now }
    {
        self.tokens.len()
    }

    /// Returns the kind of the token `n` tokens ahead; `EOF` past the end, and only there.
    pub fn kind(&self, n: usize) -> SyntaxKind
        ensures kind { raw_of result ≡ (token_at self.now n).kind }
        ensures token { n < length self.now → raw_of result ≢ kinds.EOF }
    {
        match self.tokens.get(n) {
            Some(token) => token.kind,
            None => SyntaxKind::EOF,
        }
    }

    /// Returns the contextual kind of the token `n` tokens ahead, as [`Input::contextual_kind`]
    /// does; `EOF` past the end.
    pub fn contextual_kind(&self, n: usize) -> SyntaxKind
        ensures { raw_of result ≡ (token_at self.now n).contextual }
    {
        match self.tokens.get(n) {
            Some(token) => token.contextual_kind,
            None => SyntaxKind::EOF,
        }
    }

    /// Returns `true` if the token `n` tokens ahead is joint, as [`Input::is_joint`] does; `false`
    /// past the end.
    pub fn is_joint(&self, n: usize) -> bool
        ensures { result ≡ (token_at self.now n).joint }
    {
        match self.tokens.get(n) {
            Some(token) => token.joint,
            None => false,
        }
    }

    /// Returns `true` if the grammar of the whole language reads the token `n` tokens ahead;
    /// `false` past the end.
    pub fn is_whole(&self, n: usize) -> bool
        ensures { result ≡ (token_at self.now n).whole }
    {
        match self.tokens.get(n) {
            Some(token) => token.whole,
            None => false,
        }
    }

    /// Consumes the next `n` tokens.
    pub fn take(&mut self, n: usize)
        requires { n ≤ length self.old }
        ensures { self.new ≡ drop n self.old }
    {
        self.tokens = &self.tokens[n..];
    }
}
