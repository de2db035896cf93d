//! Steps, for the lists that tests expect.

use parser_events::step::Step;
use parser_input::syntax_kind::SyntaxKind;

/// Returns the step that starts a node.
pub(crate) fn enter(kind: SyntaxKind) -> Step {
    Step::Enter { kind }
}

/// Returns the step of a leaf over one token.
pub(crate) fn leaf(kind: SyntaxKind) -> Step {
    leaf_over(kind, 1)
}

/// Returns the step of a leaf over `n_input_tokens` tokens.
pub(crate) fn leaf_over(kind: SyntaxKind, n_input_tokens: usize) -> Step {
    Step::Token {
        kind,
        n_input_tokens,
    }
}
