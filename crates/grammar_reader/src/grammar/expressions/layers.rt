//! Operands with the operators between them.

ghost use Rattle.std.specs.Prelude.{◌≤◌};
ghost use Rattle.parser_events.specs.Forest.{ExpectedExpression};
ghost use Rattle.parser_events.specs.Stack.{IsInnermost};
ghost use Rattle.rust_grammar.specs.Rule as rules;
ghost use Rattle.rust_grammar.specs.Rule.{Call, Want};
ghost use Rattle.rust_productions.specs.Layers.{layer_at, repeated, turn_at, turns_from};
ghost use Rattle.rust_productions.specs.Looks.{Takes, Asks, TakesIn, AsksIn};
ghost use Rattle.rust_productions.specs.Operators.{IsLayerNext};
ghost use Rattle.rust_productions.specs.Reads.{looks, Gives, Reads};
ghost use Rattle.rust_productions.specs.Starts.{StartsIn};

use crate::grammar::expressions::operand::prefixed;
use crate::grammar::parts::{Part, expect_part};
use parser_events::message::Message;
use parser_input::syntax_kind::SyntaxKind;
use rust_productions::condition::Condition;
use rust_productions::grammar::expressions::at_operand;
use rust_productions::grammar::operators::{Operator, current_op, take_operator};
use rust_productions::marker::Marker;
use rust_productions::parser::Parser;

/// Parses an operand with the operators of the layers up to `height`.
// a * b + c
#[cycle(grammar)]
pub(crate) fn layers(p: &mut Parser<'_>, height: u8, condition: Condition)
    requires begins { StartsIn condition (looks rules.prefixed) p.old }
    requires high { height ≤ 10 }
    ensures gives { Gives (layer_at height) condition p.old p.new }
    ensures takes { Takes 2860 p.old p.new }
{
    let frame = p.start();
    prefixed(p, condition);
    let frame = climb(p, frame, height, condition);
    frame.abandon(p);
}

/// Parses operators of the layers up to `top`, each with its right operand. After an operator of a
/// layer no tighter one can follow: it would belong to the right operand.
// * b + c
#[inline(never)]
#[cycle(grammar)]
pub(crate) fn climb(p: &mut Parser<'_>, frame: Marker, top: u8, condition: Condition) -> Marker
    requires high { top ≤ 10 }
    requires innermost { IsInnermost frame p.old.nodes }
    ensures reads { Reads condition (repeated (turns_from top 1)) p.old p.new }
    ensures asks { AsksIn result 4 p.old p.new }
{
    let mut frame = frame;
    let mut lowest = 1;
    let mut next = current_op(p);
    'turns: while lowest <= next.height && next.height <= top {
        lowest = next.height;
        frame = turn(p, frame, next, condition);
        next = current_op(p);
    }
    frame
}

/// Parses an operator and its right operand, or `as` and its type.
// + b
#[cycle(grammar)]
fn turn(p: &mut Parser<'_>, frame: Marker, operator: Operator, condition: Condition) -> Marker
    requires layer { IsLayerNext operator p.old }
    requires innermost { IsInnermost frame p.old.nodes }
    ensures reads { Reads condition (turn_at operator.height) p.old p.new }
    ensures takes { TakesIn result 3300 p.old p.new }
{
    take_operator(p, operator);
    if operator.height == 1 {
        expect_part(p, Part::TypeNoBounds);
        return frame.wrap(p, SyntaxKind::CAST_EXPR);
    }
    expect_layer(p, operator.height - 1, condition);
    frame.wrap(p, SyntaxKind::BIN_EXPR)
}

/// Parses an operand with the operators of the layers up to `height`; emits an error if there is
/// none.
// a * b
#[cycle(grammar)]
pub(crate) fn expect_layer(p: &mut Parser<'_>, height: u8, condition: Condition)
    requires high { height ≤ 10 }
    ensures reads { Reads condition (Want (Call (layer_at height)) ExpectedExpression) p.old p.new }
    ensures asks { Asks 16 p.old p.new }
{
    if at_operand(p, condition) {
        layers(p, height, condition);
        return;
    }
    p.error(Message::ExpectedExpression);
}
