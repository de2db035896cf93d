//! Tests what contracts leave open: that the steps are the intended ones, by lists written by hand.

ghost use Rattle.std.specs.Prelude.{◌≡◌, ◌∷◌, [], length, IfOk};
ghost use Rattle.parser_input.specs.Kinds as kinds;
ghost use Rattle.parser_input.specs.Recorded.{plain, identifier};

use crate::steps::{enter, leaf, leaf_over};
use parser_events::message::Message;
use parser_events::output::Output;
use parser_events::parser::Parser;
use parser_events::step::Step;
use parser_input::input::Input;
use parser_input::syntax_kind::SyntaxKind;
use std::alloc::{AllocError, Global};

fn three_words(alloc: Global) -> Result<Input, AllocError>
    ensures { IfOk result (λ input. length input ≡ 3) }
{
    let mut input = Input::with_capacity(alloc, 3)?;
    input.push_ident(SyntaxKind::IDENT)?;
    input.push_ident(SyntaxKind::IDENT)?;
    input.push_ident(SyntaxKind::IDENT)?;
    Ok(input)
}

fn word_and_float(alloc: Global) -> Result<Input, AllocError>
    ensures { IfOk result
        (λ input. input ≡ identifier kinds.IDENT ∷ plain kinds.FLOAT_NUMBER ∷ []) }
{
    let mut input = Input::with_capacity(alloc, 2)?;
    input.push_ident(SyntaxKind::IDENT)?;
    input.push(SyntaxKind::FLOAT_NUMBER)?;
    Ok(input)
}

fn pound_word_and_float(alloc: Global) -> Result<Input, AllocError>
    ensures { IfOk result (λ input. input
        ≡ plain kinds.POUND ∷ identifier kinds.IDENT ∷ plain kinds.FLOAT_NUMBER ∷ []) }
{
    let mut input = Input::with_capacity(alloc, 3)?;
    input.push(SyntaxKind::POUND)?;
    input.push_ident(SyntaxKind::IDENT)?;
    input.push(SyntaxKind::FLOAT_NUMBER)?;
    Ok(input)
}

/// Returns `true` if the steps are exactly `wanted`.
fn has_steps(output: &Output, wanted: &[Step]) -> bool {
    let mut steps = output.iter();
    for step in wanted {
        if steps.next() != Some(*step) {
            return false;
        }
    }
    steps.next().is_none()
}

#[test]
fn tokens_and_a_message_in_a_node(rt: HostRuntime) -> Result<(), AllocError> {
    let input = three_words(rt.alloc())?;
    let mut parser = Parser::new(rt.alloc(), &input);
    let path = parser.start();
    parser.token(SyntaxKind::IDENT, 1);
    parser.error(Message::Expected(SyntaxKind::SEMICOLON));
    parser.token(SyntaxKind::SHL, 2);
    let _path = path.complete(&mut parser, SyntaxKind::PATH);
    let output = parser.finish()?;
    let wanted = [
        enter(SyntaxKind::PATH),
        leaf(SyntaxKind::IDENT),
        Step::Error {
            msg: Message::Expected(SyntaxKind::SEMICOLON),
        },
        leaf_over(SyntaxKind::SHL, 2),
        Step::Exit,
    ];
    assert!(rt; has_steps(&output, &wanted));
    Ok(())
}

#[test]
fn leaf_over_300_tokens(rt: HostRuntime) -> Result<(), AllocError> {
    let mut input = Input::with_capacity(rt.alloc(), 300)?;
    for _ in 0..300 {
        input.push_ident(SyntaxKind::IDENT)?;
    }
    assert!(rt; input.len() == 300);
    let mut parser = Parser::new(rt.alloc(), &input);
    parser.token(SyntaxKind::IDENT, 300);
    let output = parser.finish()?;
    let wanted = [leaf_over(SyntaxKind::IDENT, 300)];
    assert!(rt; has_steps(&output, &wanted));
    Ok(())
}

#[test]
fn an_empty_node_beside_an_abandoned_one(rt: HostRuntime) -> Result<(), AllocError> {
    let input = three_words(rt.alloc())?;
    let mut parser = Parser::new(rt.alloc(), &input);
    let root = parser.start();
    let left_out = parser.start();
    let name = parser.start();
    let _name = name.complete(&mut parser, SyntaxKind::NAME);
    parser.token(SyntaxKind::IDENT, 1);
    left_out.abandon(&mut parser);
    let _root = root.complete(&mut parser, SyntaxKind::SOURCE_FILE);
    let output = parser.finish()?;
    let wanted = [
        enter(SyntaxKind::SOURCE_FILE),
        enter(SyntaxKind::NAME),
        Step::Exit,
        leaf(SyntaxKind::IDENT),
        Step::Exit,
    ];
    assert!(rt; has_steps(&output, &wanted));
    Ok(())
}

/// Returns `true` if the lookaheads at a word and a float have the expected values, `true` if those
/// after the word do, and the number of parser steps.
fn looked(alloc: Global, input: &Input) -> Result<(bool, bool, u64), AllocError>
    requires { length input.now ≡ 2 }
{
    let mut parser = Parser::new(alloc, input);
    let ahead = (parser.kind_at(1) == SyntaxKind::FLOAT_NUMBER)
        & (parser.kind_at(2) == SyntaxKind::EOF)
        & (parser.contextual_at(0) == SyntaxKind::IDENT)
        & !parser.joint_at(0);
    parser.token(SyntaxKind::IDENT, 1);
    let after = (parser.kind_at(0) == SyntaxKind::FLOAT_NUMBER)
        & (parser.kind_at(usize::MAX) == SyntaxKind::EOF)
        & (parser.position() == 1)
        & (parser.tokens_left() == 1);
    Ok((ahead, after, parser.finish()?.steps()))
}

#[test]
fn looks_are_counted(rt: HostRuntime) -> Result<(), AllocError> {
    let input = word_and_float(rt.alloc())?;
    assert!(rt; looked(rt.alloc(), &input)? == (true, true, 4));
    Ok(())
}

#[test]
fn a_node_around_a_closed_one(rt: HostRuntime) -> Result<(), AllocError> {
    let input = three_words(rt.alloc())?;
    let mut parser = Parser::new(rt.alloc(), &input);
    let operand = parser.start();
    parser.token(SyntaxKind::IDENT, 1);
    let operand = operand.complete(&mut parser, SyntaxKind::PATH_EXPR);
    let sum = operand.precede(&mut parser);
    assert!(rt; parser.is_innermost(&sum));
    parser.token(SyntaxKind::PLUS, 1);
    let _sum = sum.complete(&mut parser, SyntaxKind::BIN_EXPR);
    let output = parser.finish()?;
    let wanted = [
        enter(SyntaxKind::BIN_EXPR),
        enter(SyntaxKind::PATH_EXPR),
        leaf(SyntaxKind::IDENT),
        Step::Exit,
        leaf(SyntaxKind::PLUS),
        Step::Exit,
    ];
    assert!(rt; has_steps(&output, &wanted));
    Ok(())
}

#[test]
fn a_float_ends_a_field_access(rt: HostRuntime) -> Result<(), AllocError> {
    let input = word_and_float(rt.alloc())?;
    let mut parser = Parser::new(rt.alloc(), &input);
    let access = parser.start();
    parser.token(SyntaxKind::IDENT, 1);
    let around = parser.split_float(access, false);
    let _around = around.complete(&mut parser, SyntaxKind::FIELD_EXPR);
    let output = parser.finish()?;
    let wanted = [
        enter(SyntaxKind::FIELD_EXPR),
        enter(SyntaxKind::FIELD_EXPR),
        leaf(SyntaxKind::IDENT),
        Step::FloatSplit { ends_in_dot: false },
        Step::Exit,
    ];
    assert!(rt; has_steps(&output, &wanted));
    Ok(())
}

#[test]
fn nodes_that_may_be_preceded(rt: HostRuntime) -> Result<(), AllocError> {
    let input = three_words(rt.alloc())?;
    let mut parser = Parser::new(rt.alloc(), &input);
    let first = parser.start();
    parser.token(SyntaxKind::IDENT, 1);
    let first = first.complete(&mut parser, SyntaxKind::PATH);
    let second = parser.start();
    assert!(rt; !parser.can_precede(&first));
    let second = second.complete(&mut parser, SyntaxKind::NAME);
    assert!(rt; parser.can_precede(&first));
    assert!(rt; parser.can_precede(&second));
    let pair = first.precede(&mut parser);
    assert!(rt; parser.can_precede(&second));
    let pair = pair.complete(&mut parser, SyntaxKind::TUPLE_EXPR);
    assert!(rt; !parser.can_precede(&second));
    assert!(rt; parser.can_precede(&pair));
    Ok(())
}

#[test]
fn extend_left_moves_trees_into_a_node(rt: HostRuntime) -> Result<(), AllocError> {
    let input = three_words(rt.alloc())?;
    let mut parser = Parser::new(rt.alloc(), &input);
    let statement = parser.start();
    parser.token(SyntaxKind::POUND, 1);
    let operand = parser.start();
    let path = parser.start();
    parser.token(SyntaxKind::IDENT, 1);
    let _path = path.complete(&mut parser, SyntaxKind::PATH_EXPR);
    operand.extend_left(&mut parser);
    parser.token(SyntaxKind::SEMICOLON, 1);
    let _statement = statement.complete(&mut parser, SyntaxKind::EXPR_STMT);
    let output = parser.finish()?;
    let wanted = [
        enter(SyntaxKind::EXPR_STMT),
        enter(SyntaxKind::PATH_EXPR),
        leaf(SyntaxKind::POUND),
        leaf(SyntaxKind::IDENT),
        Step::Exit,
        leaf(SyntaxKind::SEMICOLON),
        Step::Exit,
    ];
    assert!(rt; has_steps(&output, &wanted));
    Ok(())
}

#[test]
fn extend_left_extends_the_outermost_node(rt: HostRuntime) -> Result<(), AllocError> {
    let input = three_words(rt.alloc())?;
    let mut parser = Parser::new(rt.alloc(), &input);
    parser.token(SyntaxKind::POUND, 1);
    let operand = parser.start();
    let call = parser.start();
    let path = parser.start();
    parser.token(SyntaxKind::IDENT, 1);
    let _path = path.complete(&mut parser, SyntaxKind::PATH_EXPR);
    let _call = call.complete(&mut parser, SyntaxKind::CALL_EXPR);
    operand.extend_left(&mut parser);
    let output = parser.finish()?;
    let wanted = [
        enter(SyntaxKind::CALL_EXPR),
        leaf(SyntaxKind::POUND),
        enter(SyntaxKind::PATH_EXPR),
        leaf(SyntaxKind::IDENT),
        Step::Exit,
        Step::Exit,
    ];
    assert!(rt; has_steps(&output, &wanted));
    Ok(())
}

#[test]
fn extend_left_extends_the_receiver_of_a_float(rt: HostRuntime) -> Result<(), AllocError> {
    let input = pound_word_and_float(rt.alloc())?;
    let mut parser = Parser::new(rt.alloc(), &input);
    parser.token(SyntaxKind::POUND, 1);
    let operand = parser.start();
    let access = parser.start();
    parser.token(SyntaxKind::IDENT, 1);
    let around = parser.split_float(access, false);
    let _around = around.complete(&mut parser, SyntaxKind::FIELD_EXPR);
    operand.extend_left(&mut parser);
    let output = parser.finish()?;
    let wanted = [
        enter(SyntaxKind::FIELD_EXPR),
        enter(SyntaxKind::FIELD_EXPR),
        leaf(SyntaxKind::POUND),
        leaf(SyntaxKind::IDENT),
        Step::FloatSplit { ends_in_dot: false },
        Step::Exit,
    ];
    assert!(rt; has_steps(&output, &wanted));
    Ok(())
}

#[test]
fn extend_left_closes_two_trees_as_an_error(rt: HostRuntime) -> Result<(), AllocError> {
    let input = three_words(rt.alloc())?;
    let mut parser = Parser::new(rt.alloc(), &input);
    parser.token(SyntaxKind::POUND, 1);
    let operand = parser.start();
    parser.token(SyntaxKind::IDENT, 1);
    parser.token(SyntaxKind::PLUS, 1);
    operand.extend_left(&mut parser);
    let output = parser.finish()?;
    let wanted = [
        enter(SyntaxKind::ERROR),
        leaf(SyntaxKind::POUND),
        leaf(SyntaxKind::IDENT),
        leaf(SyntaxKind::PLUS),
        Step::Exit,
    ];
    assert!(rt; has_steps(&output, &wanted));
    Ok(())
}
