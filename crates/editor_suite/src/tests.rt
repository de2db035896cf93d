//! Tests what contracts leave open: that calls succeed while allocations do. A row has a tree that
//! is built by hand, the changes recorded on it, and the expected outcome.
mod above;
mod copy;
mod doing;
mod handles;
mod indents;
mod levels;
mod merge;
mod refused_memory;
mod spaced;
mod told;
mod tree;
mod typed;

use crate::tests::above::kinds_above;
use crate::tests::copy::edited_copy;
use crate::tests::doing::{Do, Gap, answer, found_text};
use crate::tests::levels::{between, has_level};
use crate::tests::merge::{merged, unmerged};
use crate::tests::spaced::spaced;
use crate::tests::told::told;
use crate::tests::tree::Tree;
use crate::tests::typed::{casts, holds_clone_and_other, stripped, typed_copy};
use parser_input::SyntaxKind;
use std::alloc::Global;
use std::test::Fail;
use syntax_editor::{Annotations, IndentLevel, Space, SyntaxFactory};
use syntax_tree::TreeIds;

/// A tree, the calls that are made on it, and the expected outcome.
type Row = (Tree, &'static [Do<'static>], &'static str);

fn passes(alloc: Global, (tree, doings, expected): &Row) -> Result<bool, Fail> {
    let answer = answer(alloc, *tree, doings)?;
    Ok(answer.as_str() == *expected)
}

const TWICE: &[Row] = &[
    (
        Tree::Args,
        &[
            Do::Replace(&[1], "LITERAL 3"),
            Do::Replace(&[4], "LITERAL 3"),
        ],
        "(3, 3) 1..2 4..5",
    ),
    (
        Tree::Args,
        &[Do::Replace(&[1], "_"), Do::Replace(&[4], "_")],
        "(_, _) 1..2 4..5",
    ),
    (
        Tree::Args,
        &[Do::Insert((&[], 1), &["()"]), Do::Insert((&[], 4), &["()"])],
        "(()1, ()2) 1..3 6..8",
    ),
];

#[test]
fn one_payload_serves_twice(rt: HostRuntime) -> Result<(), Fail> {
    for row in TWICE {
        assert!(rt; passes(rt.alloc(), row)?, "{}", row.2);
    }
    Ok(())
}

const GAPS: &[Row] = &[
    (
        Tree::Args,
        &[Do::Insert((&[], 1), &["A"]), Do::Insert((&[], 1), &["B"])],
        "(BA1, 2) 1..2 2..3",
    ),
    (
        Tree::Args,
        &[Do::Insert((&[], 1), &["A", "B"])],
        "(AB1, 2) 1..2 2..3",
    ),
    (
        Tree::Args,
        &[Do::Insert((&[], 6), &["A"]), Do::Insert((&[], 7), &["B"])],
        "Foreign (1, 2)A 6..7",
    ),
];

#[test]
fn gaps_have_the_last_first(rt: HostRuntime) -> Result<(), Fail> {
    for row in GAPS {
        assert!(rt; passes(rt.alloc(), row)?, "{}", row.2);
    }
    Ok(())
}

const DELETIONS: &[Row] = &[
    (
        Tree::Args,
        &[Do::Delete(&[1]), Do::Replace(&[1], "3"), Do::Deleted(&[1])],
        "true (, 2)",
    ),
    (
        Tree::Args,
        &[Do::Replace(&[1], "3"), Do::Delete(&[1]), Do::Deleted(&[1])],
        "true (, 2)",
    ),
    (
        Tree::Args,
        &[
            Do::Replace(&[1], "3"),
            Do::Replace(&[1], "4"),
            Do::Deleted(&[1]),
        ],
        "false (4, 2) 1..2",
    ),
];

#[test]
fn deletions_stay(rt: HostRuntime) -> Result<(), Fail> {
    for row in DELETIONS {
        assert!(rt; passes(rt.alloc(), row)?, "{}", row.2);
    }
    Ok(())
}

const SECOND: &[Row] = &[
    (Tree::Args, &[Do::Delete(&[1]), Do::Delete(&[1])], "(, 2)"),
    (
        Tree::Args,
        &[Do::Remove(&[1]), Do::Deleted(&[1])],
        "false (, 2)",
    ),
    (
        Tree::Args,
        &[Do::Remove(&[1]), Do::Delete(&[1])],
        "Intersecting",
    ),
];

#[test]
fn a_second_change_is_one_more(rt: HostRuntime) -> Result<(), Fail> {
    for row in SECOND {
        assert!(rt; passes(rt.alloc(), row)?, "{}", row.2);
    }
    Ok(())
}

const ROWS: &[Row] = &[
    (
        Tree::Args,
        &[Do::DeleteAll(&[1], &[1]), Do::Delete(&[1])],
        "(, 2)",
    ),
    (
        Tree::Args,
        &[Do::ReplaceAll(&[1], &[4], &["a", "b"])],
        "(ab) 1..2 2..3",
    ),
    (
        Tree::Args,
        &[
            Do::DeleteAll(&[2], &[3]),
            Do::Insert((&[], 2), &["+"]),
            Do::Insert((&[], 3), &["-"]),
        ],
        "(1+2) 2..3",
    ),
];

#[test]
fn rows_are_changed(rt: HostRuntime) -> Result<(), Fail> {
    for row in ROWS {
        assert!(rt; passes(rt.alloc(), row)?, "{}", row.2);
    }
    Ok(())
}

const REFUSED: &[Row] = &[
    (Tree::Args, &[Do::DeleteAll(&[4], &[1])], "BadRange (1, 2)"),
    (
        Tree::Args,
        &[Do::DeleteAll(&[1], &[0, 1])],
        "BadRange (1, 2)",
    ),
    (Tree::Args, &[Do::Delete(&[])], "BadTarget (1, 2)"),
    (Tree::Args, &[Do::DeleteAll(&[], &[])], "BadTarget (1, 2)"),
    (Tree::Args, &[Do::Replace(&[], "_")], "BadTarget (1, 2)"),
    (
        Tree::Args,
        &[Do::Many(&[], &["LITERAL 3"])],
        "BadTarget (1, 2)",
    ),
    (Tree::Args, &[Do::Replace(&[], "LITERAL 3")], "3 0..1"),
    (Tree::Args, &[Do::Foreign(&[1])], "Foreign (1, 2)"),
];

#[test]
fn changes_are_refused(rt: HostRuntime) -> Result<(), Fail> {
    for row in REFUSED {
        assert!(rt; passes(rt.alloc(), row)?, "{}", row.2);
    }
    Ok(())
}

const NESTED: &[Row] = &[
    (
        Tree::Nested,
        &[Do::Wrap(true), Do::Insert((&[0], 0), &["b"])],
        "(ba) 0..4",
    ),
    (
        Tree::Nested,
        &[Do::Wrap(false), Do::Insert((&[0], 0), &["b"])],
        "MissingMapping",
    ),
    (
        Tree::Nested,
        &[Do::Delete(&[0]), Do::Insert((&[0], 0), &["b"])],
        "",
    ),
];

#[test]
fn nested_changes_move(rt: HostRuntime) -> Result<(), Fail> {
    for row in NESTED {
        assert!(rt; passes(rt.alloc(), row)?, "{}", row.2);
    }
    Ok(())
}

#[test]
fn nodes_are_found_again(rt: HostRuntime) -> Result<(), Fail> {
    let text = found_text(rt.alloc())?;
    assert!(rt; text.as_str() == "3");
    Ok(())
}

#[test]
fn copies_are_edited(rt: HostRuntime) -> Result<(), Fail> {
    let text = edited_copy(rt.alloc())?;
    assert!(rt; text.as_str() == "2 -2 3 -2 0..1");
    Ok(())
}

/// Returns `true` if the factory makes the expected whitespace and comma tokens.
fn are_tokens(alloc: Global, ids: &mut TreeIds) -> Result<bool, Fail> {
    let space = SyntaxFactory.whitespace(alloc, "\n", ids)?;
    let comma = SyntaxFactory.token(alloc, SyntaxKind::COMMA, ",", ids)?;
    let is_space = (space.kind() == SyntaxKind::WHITESPACE) & (space.text() == "\n");
    Ok(is_space & (comma.kind() == SyntaxKind::COMMA) & (comma.text() == ","))
}

#[test]
fn tokens_are_made(rt: HostRuntime) -> Result<(), Fail> {
    assert!(rt; are_tokens(rt.alloc(), &mut TreeIds::new())?);
    Ok(())
}

/// Returns the indentation of level 2, and whether the level is zero.
fn two_levels(alloc: Global) -> Result<String, Fail> {
    let mut level = IndentLevel::from(1);
    level += 1;
    Ok(format!(in alloc; "{level}{}", level.is_zero())?)
}

#[test]
fn levels_stop_at_255(rt: HostRuntime) -> Result<(), Fail> {
    assert!(rt; IndentLevel(250) + 10 == IndentLevel(255));
    assert!(rt; IndentLevel::zero().is_zero());
    assert!(rt; two_levels(rt.alloc())?.as_str() == "        false");
    Ok(())
}

/// A tree, the up-path of an element, and its indent level.
type Level = (Tree, &'static [usize], u8);

const LEVELS: &[Level] = &[
    (Tree::Lines, &[], 1),
    (Tree::Lines, &[0, 1], 1),
    (Tree::Lines, &[1, 1], 2),
    (Tree::Lines, &[2, 1], 2),
    (Tree::Lines, &[4, 1], 0),
];

/// Elements with no line break before them: their level is 0.
const NO_LINES: &[Level] = &[(Tree::Args, &[4], 0), (Tree::Empty, &[], 0)];

#[test]
fn levels_are_those_of_lines(rt: HostRuntime) -> Result<(), Fail> {
    for (tree, way, level) in LEVELS {
        assert!(rt; has_level(rt.alloc(), *tree, way, *level)?);
    }
    Ok(())
}

#[test]
fn levels_need_a_line(rt: HostRuntime) -> Result<(), Fail> {
    for (tree, way, level) in NO_LINES {
        assert!(rt; has_level(rt.alloc(), *tree, way, *level)?);
    }
    Ok(())
}

/// A tree, the indices of two children of its root, and the whitespace between them.
type Between = (Tree, usize, usize, Space);

fn is_between(alloc: Global, (tree, left, right, space): &Between) -> Result<bool, Fail> {
    Ok(between(alloc, *tree, *left, *right)? == *space)
}

const NEIGHBOURS: &[Between] = &[
    (Tree::Args, 1, 2, Space::Nothing),
    (Tree::Args, 2, 4, Space::Blank),
    (Tree::Args, 3, 4, Space::Nothing),
    (Tree::Items, 1, 3, Space::Blank),
];

#[test]
fn neighbours_touch_or_stand_apart(rt: HostRuntime) -> Result<(), Fail> {
    for row in NEIGHBOURS {
        assert!(rt; is_between(rt.alloc(), row)?);
    }
    Ok(())
}

const LINES: &[Between] = &[
    (Tree::Items, 7, 1, Space::Line(0)),
    (Tree::Items, 1, 4, Space::Line(2)),
    (Tree::Items, 7, 3, Space::Line(2)),
];

#[test]
fn uses_and_attributes_have_lines(rt: HostRuntime) -> Result<(), Fail> {
    for row in LINES {
        assert!(rt; is_between(rt.alloc(), row)?);
    }
    Ok(())
}

const MERGED: &[(usize, usize, &str)] = &[
    (1, 4, "(, )"),
    (1, 1, "two changes replace one element"),
];

fn is_merged(alloc: Global, one: usize, other: usize, expected: &str) -> Result<bool, Fail> {
    Ok(merged(alloc, one, other)?.as_str() == expected)
}

#[test]
fn editors_of_one_tree_are_merged(rt: HostRuntime) -> Result<(), Fail> {
    for (one, other, expected) in MERGED {
        assert!(rt;
            is_merged(rt.alloc(), *one, *other, expected)?,
            "{expected}"
        );
    }
    Ok(())
}

#[test]
fn editors_of_two_trees_are_not(rt: HostRuntime) -> Result<(), Fail> {
    let found = unmerged(rt.alloc())?;
    assert!(rt;
        found.as_str() == "of another tree; (, 2); {\n\n        a\n   }",
        "{found}"
    );
    Ok(())
}

/// A tree, a gap in it, the elements to insert there, and the expected outcome.
type SpacedRow = (Tree, Gap<'static>, &'static [&'static str], &'static str);

fn is_spaced(
    alloc: Global,
    ids: &mut TreeIds,
    (tree, gap, texts, expected): &SpacedRow,
) -> Result<bool, Fail> {
    let answer = spaced(alloc, ids, *tree, *gap, texts)?;
    Ok(answer.as_str() == *expected)
}

const SPACED: &[SpacedRow] = &[
    (Tree::Args, (&[], 2), &["A"], "(1 A, 2) 2..3 3..4"),
    (
        Tree::Args,
        (&[], 2),
        &["A", "B"],
        "(1 AB, 2) 2..3 3..4 4..5",
    ),
    (Tree::Args, (&[], 0), &["A"], "A (1, 2) 0..1 1..2"),
    (Tree::Args, (&[], 6), &["A"], "(1, 2) A 6..7 7..8"),
    (Tree::Args, (&[], 1), &[], "(1, 2)"),
    (Tree::Args, (&[], 7), &["A"], "of another tree"),
    (
        Tree::List,
        (&[], 1),
        &["USE"],
        "{\n    use } 1..6 6..9 9..10",
    ),
    (Tree::List, (&[], 1), &["A"], "{ A } 1..2 2..3 3..4"),
    (
        Tree::Lines,
        (&[1], 1),
        &["LET"],
        "\n    {\n        let;\n\n        a\n   } 6..15 15..19",
    ),
];

#[test]
fn what_is_put_in_stands_apart(rt: HostRuntime) -> Result<(), Fail> {
    for row in SPACED {
        assert!(rt;
            is_spaced(rt.alloc(), &mut TreeIds::new(), row)?,
            "{}",
            row.3
        );
    }
    Ok(())
}

const NO_NUMBER: SpacedRow = (Tree::Args, (&[], 2), &["A"], "no tree number is left");

#[test]
fn white_space_takes_numbers(rt: HostRuntime) -> Result<(), Fail> {
    let mut ids = TreeIds::starting_at(4_294_967_294);
    assert!(rt; is_spaced(rt.alloc(), &mut ids, &NO_NUMBER)?);
    Ok(())
}

#[test]
fn edits_tell_of_their_elements(rt: HostRuntime) -> Result<(), Fail> {
    let told = told(rt.alloc())?;
    let expected = " 1..2 4..5; 1..2 4..5; 2..3;; 1..2 put 4..5 put 2..3 comma";
    let is_told = told.as_str() == expected;
    drop(told);
    assert!(rt; is_told);
    Ok(())
}

#[test]
fn typed_nodes_are_edited_as_copies(rt: HostRuntime) -> Result<(), Fail> {
    let copy = typed_copy(rt.alloc())?;
    let is_copy = copy.as_str() == "2 {\n\n        a\n   } true";
    drop(copy);
    assert!(rt; is_copy);
    Ok(())
}

#[test]
fn typed_nodes_are_those_of_their_tree(rt: HostRuntime) -> Result<(), Fail> {
    assert!(rt; holds_clone_and_other(rt.alloc())? == [true, false]);
    Ok(())
}

#[test]
fn what_is_above_an_element_begins_with_a_node(rt: HostRuntime) -> Result<(), Fail> {
    assert!(rt; kinds_above(rt.alloc(), &[0, 1])?.as_str() == " LITERAL ARG_LIST");
    assert!(rt; kinds_above(rt.alloc(), &[1])?.as_str() == " LITERAL ARG_LIST");
    Ok(())
}

#[test]
fn marks_come_one_after_another(rt: HostRuntime) -> Result<(), Fail> {
    let mut marks = Annotations::new();
    let first = marks.next()?;
    assert!(rt; first < marks.next()?);
    Ok(())
}

#[test]
fn attributes_and_documentation_go(rt: HostRuntime) -> Result<(), Fail> {
    let text = stripped(rt.alloc())?;
    let is_stripped = text.as_str() == "struct ;";
    drop(text);
    assert!(rt; is_stripped);
    Ok(())
}

#[test]
fn kinds_have_one_type_each(rt: HostRuntime) {
    assert!(rt; casts(SyntaxKind::SOURCE_FILE) == [true, false, false, false, false, false]);
    assert!(rt; casts(SyntaxKind::STRUCT) == [false, true, false, false, false, false]);
    assert!(rt; casts(SyntaxKind::FN) == [false, false, true, false, false, false]);
    assert!(rt; casts(SyntaxKind::USE) == [false, false, false, true, false, false]);
    assert!(rt; casts(SyntaxKind::ITEM_LIST) == [false, false, false, false, true, false]);
    assert!(rt; casts(SyntaxKind::STMT_LIST) == [false, false, false, false, false, true]);
    assert!(rt; casts(SyntaxKind::ENUM) == [false, false, false, false, false, false]);
}
