//! Texts of nodes: search, pieces, and equality.
use super::{Node, first_list, tree};
use crate::Lists;
use rowan::{SyntaxNode, SyntaxText};
use rowan_green::{
    GreenError, GreenNode, GreenNodeBuilder, GreenToken, NodeOrToken, SyntaxKind, TextRange,
    TextSize,
};
use std::alloc::{AllocError, Global};
use std::test::Fail;

/// Returns a root with the tokens of `pieces`, which are separated by spaces. Its text lies in one
/// piece.
fn flat(alloc: Global, pieces: &str) -> Result<GreenNode, GreenError> {
    let mut builder = GreenNodeBuilder::new(alloc);
    put_flat(&mut builder, pieces)?;
    match builder.finish() {
        Ok(node) => Ok(node),
        Err(unfinished) => Err(unfinished.error),
    }
}

fn put_flat(builder: &mut GreenNodeBuilder<'_>, pieces: &str) -> Result<(), GreenError> {
    builder.start_node(SyntaxKind(1))?;
    for piece in pieces.split(' ') {
        builder.token(SyntaxKind(3), piece)?;
    }
    builder.finish_node()
}

/// Returns an equal root, made of tokens that have their texts apart.
fn of_tokens(alloc: Global, pieces: &str) -> Result<GreenNode, GreenError> {
    let mut tokens = Vec::new(alloc);
    for piece in pieces.split(' ') {
        let token = GreenToken::new(alloc, SyntaxKind(3), piece)?;
        tokens.push(NodeOrToken::Token(token))?;
    }
    GreenNode::new(alloc, SyntaxKind(1), tokens.into_iter())
}

/// Returns the text of a root.
fn text_of(alloc: Global, green: GreenNode) -> Result<SyntaxText, GreenError> {
    let root: SyntaxNode<Lists> = SyntaxNode::new_root(alloc, green)?;
    Ok(root.text()?)
}

/// A question about a text.
#[derive(Clone, Copy)]
enum Ask {
    Find(char),
    Has(char),
    At(u32),
    Pieces,
    CountOfPieces,
    LengthBefore(&'static str),
    Is(&'static str),
    Same(&'static str),
    Shown,
}

/// Pieces, a question about their text, and the expected answer.
type Row = (&'static str, Ask, &'static str);

fn show_number(alloc: Global, number: u64) -> Result<String, AllocError> {
    format!(in alloc; "{number}")
}

fn show_char(alloc: Global, found: Option<char>) -> Result<String, AllocError> {
    match found {
        Some(found) => format!(in alloc; "{found}"),
        None => String::from_str(alloc, "none"),
    }
}

fn show_place(alloc: Global, found: Option<TextSize>) -> Result<String, AllocError> {
    match found {
        Some(place) => show_number(alloc, place.0 as u64),
        None => String::from_str(alloc, "none"),
    }
}

fn show_test(alloc: Global, holds: bool) -> Result<String, AllocError> {
    String::from_str(alloc, if holds { "yes" } else { "no" })
}

/// Returns the pieces, each after a bar.
fn show_pieces(alloc: Global, text: &SyntaxText) -> Result<String, AllocError> {
    let mut out = String::new(alloc);
    text.try_for_each_chunk(|piece| {
        out.push_str("|")?;
        out.push_str(piece)
    })?;
    Ok(out)
}

fn count_of_pieces(text: &SyntaxText) -> u64 {
    let mut count = 0u64;
    text.for_each_chunk(|_piece| count = count.wrapping_add(1));
    count
}

/// Returns the length of the text before the first piece `stop`, or of the whole text if there is
/// none.
fn length_before(text: &SyntaxText, stop: &str) -> u64 {
    let folded = text.try_fold_chunks(0u64, |total, piece| {
        if piece == stop {
            Err(total)
        } else {
            Ok(total.wrapping_add(piece.len() as u64))
        }
    });
    match folded {
        Ok(total) => total,
        Err(total) => total,
    }
}

fn is_same(alloc: Global, text: &SyntaxText, pieces: &str) -> Result<bool, GreenError> {
    let other = text_of(alloc, flat(alloc, pieces)?)?;
    Ok(*text == other)
}

fn answer(alloc: Global, text: &SyntaxText, ask: Ask) -> Result<String, Fail> {
    Ok(match ask {
        Ask::Find(wanted) => show_place(alloc, text.find_char(wanted))?,
        Ask::Has(wanted) => show_test(alloc, text.contains_char(wanted))?,
        Ask::At(offset) => show_char(alloc, text.char_at(TextSize(offset)))?,
        Ask::Pieces => show_pieces(alloc, text)?,
        Ask::CountOfPieces => show_number(alloc, count_of_pieces(text))?,
        Ask::LengthBefore(stop) => show_number(alloc, length_before(text, stop))?,
        Ask::Is(other) => show_test(alloc, text.eq_str(other))?,
        Ask::Same(pieces) => show_test(alloc, is_same(alloc, text, pieces)?)?,
        Ask::Shown => format!(in alloc; "{text}")?,
    })
}

fn is_met(alloc: Global, green: GreenNode, (_, ask, expected): &Row) -> Result<bool, Fail> {
    let text = text_of(alloc, green)?;
    let answer = answer(alloc, &text, *ask)?;
    Ok(answer.as_str() == *expected)
}

/// Returns `true` if a root that was built answers so.
fn is_met_built(alloc: Global, row: &Row) -> Result<bool, Fail> {
    is_met(alloc, flat(alloc, row.0)?, row)
}

/// Returns `true` if a root whose tokens have their texts apart answers so.
fn is_met_apart(alloc: Global, row: &Row) -> Result<bool, Fail> {
    is_met(alloc, of_tokens(alloc, row.0)?, row)
}

const READ: &[Row] = &[
    ("ab \u{e9} cd", Ask::Find('a'), "0"),
    ("ab \u{e9} cd", Ask::Find('\u{e9}'), "2"),
    ("ab \u{e9} cd", Ask::Find('d'), "5"),
    ("ab \u{e9} cd", Ask::Find('\u{e8}'), "none"),
    ("ab ba", Ask::Find('b'), "1"),
    ("ab \u{e9} cd", Ask::Has('c'), "yes"),
    ("ab \u{e9} cd", Ask::Has('e'), "no"),
    ("ab \u{e9} cd", Ask::At(1), "b"),
    ("ab \u{e9} cd", Ask::At(2), "\u{e9}"),
    ("ab \u{e9} cd", Ask::At(3), "none"),
    ("ab \u{e9} cd", Ask::At(4), "c"),
    ("ab \u{e9} cd", Ask::At(6), "none"),
    ("ab \u{e9} cd", Ask::At(4294967295), "none"),
    ("ab \u{e9} cd", Ask::Is("ab\u{e9}cd"), "yes"),
    ("ab \u{e9} cd", Ask::Is("ab\u{e9}c"), "no"),
    ("ab \u{e9} cd", Ask::Is("ab\u{e8}cd"), "no"),
    ("ab cd", Ask::Is("abcde"), "no"),
    ("{ abc }ab", Ask::Same("{ abc } ab"), "yes"),
    ("{ abc }ab", Ask::Same("{ abc } aB"), "no"),
    ("{ abc }ab", Ask::Same("{abc }"), "no"),
    ("ab \u{e9} cd", Ask::Shown, "ab\u{e9}cd"),
];

#[test]
fn texts_are_read(rt: HostRuntime) -> Result<(), Fail> {
    for row in READ {
        assert!(rt;
            is_met_built(rt.alloc(), row)?,
            "built: {} of {}",
            row.2,
            row.0
        );
        assert!(rt;
            is_met_apart(rt.alloc(), row)?,
            "apart: {} of {}",
            row.2,
            row.0
        );
    }
    Ok(())
}

const PIECES_APART: &[Row] = &[
    ("ab \u{e9} cd", Ask::Pieces, "|ab|\u{e9}|cd"),
    ("ab  cd", Ask::Pieces, "|ab|cd"),
    ("ab  cd", Ask::CountOfPieces, "2"),
    ("ab \u{e9} cd", Ask::LengthBefore("cd"), "4"),
    ("ab \u{e9} cd", Ask::LengthBefore("d"), "6"),
];

#[test]
fn texts_apart_are_read_in_pieces(rt: HostRuntime) -> Result<(), Fail> {
    for row in PIECES_APART {
        assert!(rt; is_met_apart(rt.alloc(), row)?, "{} of {}", row.2, row.0);
    }
    Ok(())
}

const PIECES_BUILT: &[Row] = &[
    ("ab \u{e9} cd", Ask::Pieces, "|ab\u{e9}cd"),
    ("ab  cd", Ask::CountOfPieces, "1"),
    ("ab \u{e9} cd", Ask::LengthBefore("cd"), "6"),
    ("ab \u{e9} cd", Ask::LengthBefore("ab\u{e9}cd"), "0"),
];

#[test]
fn built_texts_are_read_in_one_piece(rt: HostRuntime) -> Result<(), Fail> {
    for row in PIECES_BUILT {
        assert!(rt; is_met_built(rt.alloc(), row)?, "{} of {}", row.2, row.0);
    }
    Ok(())
}

/// Returns the length of the text of `node`, and of the empty slice at its end.
fn text_lengths(node: &Node) -> Result<(u32, u32), AllocError> {
    let text = node.text()?;
    let end = text.slice(TextRange::empty(text.len()))?;
    Ok((text.len().0, end.len().0))
}

fn list_lengths(alloc: Global) -> Result<(u32, u32), Fail> {
    let list = first_list(alloc)?;
    Ok(text_lengths(&list)?)
}

#[test]
fn texts(rt: HostRuntime) -> Result<(), Fail> {
    assert!(rt; list_lengths(rt.alloc())? == (3, 0));
    Ok(())
}

/// Two trees, and whether their texts are equal.
type Pair = (&'static str, &'static str, bool);

fn tree_text(alloc: Global, words: &str) -> Result<SyntaxText, GreenError> {
    let root = tree(alloc, words)?;
    Ok(root.text()?)
}

fn is_told(alloc: Global, (first, second, equal): &Pair) -> Result<bool, GreenError> {
    let first = tree_text(alloc, first)?;
    let second = tree_text(alloc, second)?;
    Ok((first == second) == *equal)
}

const PAIRS: &[Pair] = &[
    (
        "{ ab ( , ( ) cd ) ; ( e ) }",
        "{ ( a ( b ) , ) c ( d ; e ) }",
        true,
    ),
    ("{ ( abc ) ( d ) }", "{ ( ) ( a ) ( bcd ) }", true),
    ("{ ( abc ) ( d ) }", "{ ( a ) ( bce ) }", false),
    ("{ ( ( abcd ) ) }", "{ a b c d }", true),
    ("{ ( ab ( c ) ) x }", "{ ( a ( bx ) ) c }", false),
];

#[test]
fn trees_cut_a_text_as_they_like(rt: HostRuntime) -> Result<(), Fail> {
    for pair in PAIRS {
        assert!(rt; is_told(rt.alloc(), pair)?, "{}", pair.0);
    }
    Ok(())
}
