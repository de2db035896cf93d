//! Trees that are built by hand. Texts name payloads.
ghost use Rattle.std.specs.Prelude.{◌≡◌, [], IfOk};

use parser_input::SyntaxKind;
use rowan_green::{GreenNode, GreenNodeBuilder, GreenToken};
use std::alloc::Global;
use std::test::Fail;
use syntax_tree::{SyntaxElement, SyntaxNode, SyntaxToken, TreeIds};

/// The trees that these tests edit or insert.
#[derive(Clone, Copy)]
pub enum Tree {
    /// `(1, 2)`: an argument list, whose elements 1 and 4 are literals.
    Args,
    /// `a`: a path in a file.
    Nested,
    /// `(a)`: a path in parentheses, its element 1.
    Wrapped,
    /// `3`: a literal.
    Literal,
    /// `a` in braces, on separate lines: one level before `{`, two after an empty line before `a`,
    /// three spaces before `}`.
    Lines,
    /// `let;`: a statement.
    Let,
    /// `use`: an item.
    Use,
    /// `{}`: a list of items.
    List,
    /// A file without tokens.
    Empty,
    /// Uses and attributes on lines of level one, two and none: elements 1 and 4 are uses, 3, 5 and
    /// 7 attributes.
    Items,
    /// A struct after a comment and an attribute, with whitespace after each.
    Documented,
}

#[derive(Clone, Copy)]
enum Step {
    Open(SyntaxKind),
    Leaf(SyntaxKind, &'static str),
    Close,
}

fn raw(kind: SyntaxKind) -> rowan_green::SyntaxKind {
    rowan_green::SyntaxKind(kind.to_raw())
}

const LITERAL: Step = Step::Open(SyntaxKind::LITERAL);

fn steps(tree: Tree) -> &'static [Step] {
    match tree {
        Tree::Args => &[
            Step::Open(SyntaxKind::ARG_LIST),
            Step::Leaf(SyntaxKind::L_PAREN, "("),
            LITERAL,
            Step::Leaf(SyntaxKind::INT_NUMBER, "1"),
            Step::Close,
            Step::Leaf(SyntaxKind::COMMA, ","),
            Step::Leaf(SyntaxKind::WHITESPACE, " "),
            LITERAL,
            Step::Leaf(SyntaxKind::INT_NUMBER, "2"),
            Step::Close,
            Step::Leaf(SyntaxKind::R_PAREN, ")"),
            Step::Close,
        ],
        Tree::Nested => &[
            Step::Open(SyntaxKind::SOURCE_FILE),
            Step::Open(SyntaxKind::PATH),
            Step::Leaf(SyntaxKind::IDENT, "a"),
            Step::Close,
            Step::Close,
        ],
        Tree::Wrapped => &[
            Step::Open(SyntaxKind::PAREN_EXPR),
            Step::Leaf(SyntaxKind::L_PAREN, "("),
            Step::Open(SyntaxKind::PATH),
            Step::Leaf(SyntaxKind::IDENT, "a"),
            Step::Close,
            Step::Leaf(SyntaxKind::R_PAREN, ")"),
            Step::Close,
        ],
        Tree::Literal => &[
            LITERAL,
            Step::Leaf(SyntaxKind::INT_NUMBER, "3"),
            Step::Close,
        ],
        Tree::Lines => &[
            Step::Open(SyntaxKind::BLOCK_EXPR),
            Step::Leaf(SyntaxKind::WHITESPACE, "\n    "),
            Step::Open(SyntaxKind::STMT_LIST),
            Step::Leaf(SyntaxKind::L_CURLY, "{"),
            Step::Leaf(SyntaxKind::WHITESPACE, "\n\n        "),
            Step::Open(SyntaxKind::PATH),
            Step::Leaf(SyntaxKind::IDENT, "a"),
            Step::Close,
            Step::Leaf(SyntaxKind::WHITESPACE, "\n   "),
            Step::Leaf(SyntaxKind::R_CURLY, "}"),
            Step::Close,
            Step::Close,
        ],
        Tree::Let => &[
            Step::Open(SyntaxKind::LET_STMT),
            Step::Leaf(SyntaxKind::LET_KW, "let"),
            Step::Leaf(SyntaxKind::SEMICOLON, ";"),
            Step::Close,
        ],
        Tree::Use => &[
            Step::Open(SyntaxKind::USE),
            Step::Leaf(SyntaxKind::USE_KW, "use"),
            Step::Close,
        ],
        Tree::List => &[
            Step::Open(SyntaxKind::ITEM_LIST),
            Step::Leaf(SyntaxKind::L_CURLY, "{"),
            Step::Leaf(SyntaxKind::R_CURLY, "}"),
            Step::Close,
        ],
        Tree::Empty => &[Step::Open(SyntaxKind::SOURCE_FILE), Step::Close],
        Tree::Documented => &[
            Step::Open(SyntaxKind::STRUCT),
            Step::Leaf(SyntaxKind::COMMENT, "// a"),
            Step::Leaf(SyntaxKind::WHITESPACE, "\n"),
            Step::Open(SyntaxKind::ATTR),
            Step::Leaf(SyntaxKind::POUND, "#"),
            Step::Close,
            Step::Leaf(SyntaxKind::WHITESPACE, " "),
            Step::Leaf(SyntaxKind::STRUCT_KW, "struct"),
            Step::Leaf(SyntaxKind::WHITESPACE, " "),
            Step::Leaf(SyntaxKind::SEMICOLON, ";"),
            Step::Close,
        ],
        Tree::Items => &[
            Step::Open(SyntaxKind::SOURCE_FILE),
            Step::Leaf(SyntaxKind::WHITESPACE, "\n    "),
            Step::Open(SyntaxKind::USE),
            Step::Leaf(SyntaxKind::USE_KW, "use"),
            Step::Close,
            Step::Leaf(SyntaxKind::WHITESPACE, "\n        "),
            Step::Open(SyntaxKind::ATTR),
            Step::Leaf(SyntaxKind::POUND, "#"),
            Step::Close,
            Step::Open(SyntaxKind::USE),
            Step::Leaf(SyntaxKind::USE_KW, "use"),
            Step::Close,
            Step::Open(SyntaxKind::ATTR),
            Step::Leaf(SyntaxKind::POUND, "#"),
            Step::Close,
            Step::Leaf(SyntaxKind::WHITESPACE, "\n"),
            Step::Open(SyntaxKind::ATTR),
            Step::Leaf(SyntaxKind::POUND, "#"),
            Step::Close,
            Step::Close,
        ],
    }
}

fn green(alloc: Global, tree: Tree) -> Result<GreenNode, Fail> {
    let mut builder = GreenNodeBuilder::new(alloc);
    for step in steps(tree) {
        match *step {
            Step::Open(kind) => builder.start_node(raw(kind))?,
            Step::Leaf(kind, text) => builder.token(raw(kind), text)?,
            Step::Close => builder.finish_node()?,
        }
    }
    match builder.finish() {
        Ok(node) => Ok(node),
        Err(unfinished) => Err(Fail::from(unfinished.error)),
    }
}

/// Returns the root of `tree`, under the next tree number.
pub(crate) fn root(alloc: Global, tree: Tree, ids: &mut TreeIds) -> Result<SyntaxNode, Fail>
    ensures { IfOk result (λ r. r.place.up ≡ []) }
{
    Ok(SyntaxNode::new_root(alloc, green(alloc, tree)?, ids)?)
}

/// Returns the tree that `text` names, or `None` if it is the text of a token.
fn payload_tree(text: &str) -> Option<Tree> {
    match text {
        "LITERAL 3" => Some(Tree::Literal),
        "LET" => Some(Tree::Let),
        "USE" => Some(Tree::Use),
        _ => None,
    }
}

/// Returns the root of the tree that `text` names, or an identifier token of this text.
pub(crate) fn payload(alloc: Global, text: &str, ids: &mut TreeIds) -> Result<SyntaxElement, Fail> {
    if let Some(tree) = payload_tree(text) {
        return Ok(SyntaxElement::Node(root(alloc, tree, ids)?));
    }
    let green = GreenToken::new(alloc, raw(SyntaxKind::IDENT), text)?;
    Ok(SyntaxElement::Token(SyntaxToken::detached(alloc, green, ids)?))
}
