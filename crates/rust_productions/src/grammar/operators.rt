//! The operators between operands.

ghost use Rattle.std.specs.Prelude.{◌≡◌, ◌≢◌, ◌≤◌, IsTrue, Some, true, if◌then◌else◌};
ghost use Rattle.parser_input.specs.Kind.{raw_of};
ghost use Rattle.parser_input.specs.Kinds as kinds;
ghost use Rattle.rust_grammar.specs.Rule.{Both, Joint, Kind, One, spelled_at};
ghost use Rattle.rust_grammar.specs.Expressions.{mark_begins};
ghost use Rattle.rust_grammar.specs.Words.{'|>'};
ghost use Rattle.rust_productions.specs.Layers.{operators_at};
ghost use Rattle.rust_productions.specs.Looks.{tokens, Takes, Peeks, Stays};
ghost use Rattle.rust_productions.specs.Operators.{IsMark, IsNext, spelling_of};
ghost use Rattle.rust_productions.specs.Reads.{Does, Reads, Saw, Condition};
ghost use Rattle.rust_productions.specs.Starts.{Starts};

use crate::parser::Parser;
use parser_input::syntax_kind::SyntaxKind;

/// An operator, or none.
#[derive(Clone, Copy)]
pub struct Operator {
    /// The layer that it belongs to, counted from the tightest, which is 1. Above the ten layers
    /// stand `|>`, of height 11, and assignments, of height 12. None is of height 0.
    pub height: u8,
    pub kind: SyntaxKind,
    /// How many tokens it is.
    pub width: u8,
}

impl Operator {
    fn new(height: u8, kind: SyntaxKind, width: u8) -> Operator
        ensures { result ≡ record { height = height; kind = kind; width = width } }
    {
        Operator {
            height,
            kind,
            width,
        }
    }

    fn none() -> Operator
        ensures { result.height ≡ 0 }
    {
        Operator::new(0, SyntaxKind::EOF, 0)
    }

    /// This operator, or where an `=` belongs to it the assignment of this kind.
    fn or_assignment(self, assigned: bool, kind: SyntaxKind) -> Operator
        ensures { result ≡ if assigned then record { height = 12; kind = kind; width = 2 } else self }
    {
        if assigned {
            Operator::new(12, kind, 2)
        } else {
            self
        }
    }
}

/// Returns `true` if the next token touches the second, and that is of this kind.
fn at_joined(p: &mut Parser<'_>, kind: SyntaxKind) -> bool
    ensures sees { (c : Condition) → Saw c (Both (Joint 0) (Kind 1 (raw_of kind))) p.old result }
    ensures some { IsTrue result → raw_of kind ≢ kinds.EOF → 2 ≤ tokens p.old }
    ensures peeks { Peeks 1 p.old p.new }
{
    if !p.joint_at(0) {
        return false;
    }
    p.at_second(kind)
}

/// Returns `true` if the second token touches the third, and that is of this kind.
pub(crate) fn at_joined_after(p: &mut Parser<'_>, kind: SyntaxKind) -> bool
    ensures sees { (c : Condition) → Saw c (Both (Joint 1) (Kind 2 (raw_of kind))) p.old result }
    ensures some { IsTrue result → raw_of kind ≢ kinds.EOF → 3 ≤ tokens p.old }
    ensures peeks { Peeks 1 p.old p.new }
{
    if !p.joint_at(1) {
        return false;
    }
    p.at_third(kind)
}

/// Returns `true` if the operator `|>` is next. The current token is `|`.
fn at_pipe_gt(p: &mut Parser<'_>) -> bool
    requires { (c : Condition) → Saw c (Kind 0 kinds.PIPE) p.old true }
    ensures sees { (c : Condition) → Saw c (spelled_at 0 '|>') p.old result }
    ensures some { IsTrue result → 2 ≤ tokens p.old }
    ensures peeks { Peeks 1 p.old p.new }
{
    if !p.at_contextual(SyntaxKind::PIPE_GT) {
        return false;
    }
    at_joined(p, SyntaxKind::R_ANGLE)
}

/// Returns `true` if the next token touches the second.
pub fn at_joint(p: &mut Parser<'_>) -> bool
    ensures sees { (c : Condition) → Saw c (Joint 0) p.old result }
    ensures same { Does (λ s. s) p.old p.new }
    ensures stays { Stays p.old p.new }
{
    p.joint_at(0)
}

/// A range operator: `..` or `..=`.
#[derive(Clone, Copy)]
pub enum RangeMark {
    Exclusive,
    Inclusive,
}

/// Returns the range operator that is next, if there is one.
pub fn range_mark(p: &mut Parser<'_>) -> Option<RangeMark>
    ensures mark { IsMark result p.old }
    ensures peeks { Peeks 3 p.old p.new }
{
    if !p.at(SyntaxKind::DOT) {
        return None;
    }
    if !at_joint(p) {
        return None;
    }
    if !p.at_second(SyntaxKind::DOT) {
        return None;
    }
    if at_joined_after(p, SyntaxKind::EQ) {
        return Some(RangeMark::Inclusive);
    }
    Some(RangeMark::Exclusive)
}

/// Returns the range operator that is next, where one is.
pub fn present_mark(p: &mut Parser<'_>) -> RangeMark
    requires { Starts mark_begins p.old }
    ensures mark { IsMark (Some result) p.old }
    ensures peeks { Peeks 1 p.old p.new }
{
    if at_joined_after(p, SyntaxKind::EQ) {
        return RangeMark::Inclusive;
    }
    RangeMark::Exclusive
}

/// Takes the range operator that is next.
pub fn take_mark(p: &mut Parser<'_>, mark: RangeMark)
    requires { IsMark (Some mark) p.old }
    ensures reads { (c : Condition) → Reads c (One (spelling_of mark)) p.old p.new }
    ensures takes { Takes 4096 p.old p.new }
{
    match mark {
        RangeMark::Exclusive => p.token(SyntaxKind::DOT2, 2),
        RangeMark::Inclusive => p.token(SyntaxKind::DOT2EQ, 3),
    }
}

/// Returns the operator that is next, the longest one, if there is one.
pub fn current_op(p: &mut Parser<'_>) -> Operator
    ensures next { IsNext result p.old }
    ensures peeks { Peeks 4 p.old p.new }
{
    match p.current() {
        SyntaxKind::AS_KW => Operator::new(1, SyntaxKind::AS_KW, 1),
        SyntaxKind::STAR => {
            let assigned = at_joined(p, SyntaxKind::EQ);
            Operator::new(2, SyntaxKind::STAR, 1).or_assignment(assigned, SyntaxKind::STAREQ)
        }
        SyntaxKind::SLASH => {
            let assigned = at_joined(p, SyntaxKind::EQ);
            Operator::new(2, SyntaxKind::SLASH, 1).or_assignment(assigned, SyntaxKind::SLASHEQ)
        }
        SyntaxKind::PERCENT => {
            let assigned = at_joined(p, SyntaxKind::EQ);
            Operator::new(2, SyntaxKind::PERCENT, 1).or_assignment(assigned, SyntaxKind::PERCENTEQ)
        }
        SyntaxKind::PLUS => {
            let assigned = at_joined(p, SyntaxKind::EQ);
            Operator::new(3, SyntaxKind::PLUS, 1).or_assignment(assigned, SyntaxKind::PLUSEQ)
        }
        SyntaxKind::MINUS => {
            let assigned = at_joined(p, SyntaxKind::EQ);
            Operator::new(3, SyntaxKind::MINUS, 1).or_assignment(assigned, SyntaxKind::MINUSEQ)
        }
        SyntaxKind::CARET => {
            let assigned = at_joined(p, SyntaxKind::EQ);
            Operator::new(6, SyntaxKind::CARET, 1).or_assignment(assigned, SyntaxKind::CARETEQ)
        }
        SyntaxKind::AMP => after_ampersand(p),
        SyntaxKind::PIPE => after_pipe(p),
        SyntaxKind::EQ => after_equals(p),
        SyntaxKind::BANG => after_bang(p),
        SyntaxKind::L_ANGLE => after_left_angle(p),
        SyntaxKind::R_ANGLE => after_right_angle(p),
        _ => Operator::none(),
    }
}

/// Returns the operator that starts with the `&` that is next.
fn after_ampersand(p: &mut Parser<'_>) -> Operator
    requires first { (c : Condition) → Saw c (Kind 0 kinds.AMP) p.old true }
    requires some { 1 ≤ tokens p.old }
    ensures next { IsNext result p.old }
    ensures peeks { Peeks 2 p.old p.new }
{
    if at_joined(p, SyntaxKind::AMP) {
        return Operator::new(9, SyntaxKind::AMP2, 2);
    }
    let assigned = at_joined(p, SyntaxKind::EQ);
    Operator::new(5, SyntaxKind::AMP, 1).or_assignment(assigned, SyntaxKind::AMPEQ)
}

/// Returns the operator that starts with the `|` that is next.
fn after_pipe(p: &mut Parser<'_>) -> Operator
    requires first { (c : Condition) → Saw c (Kind 0 kinds.PIPE) p.old true }
    requires some { 1 ≤ tokens p.old }
    ensures next { IsNext result p.old }
    ensures peeks { Peeks 3 p.old p.new }
{
    if at_joined(p, SyntaxKind::PIPE) {
        return Operator::new(10, SyntaxKind::PIPE2, 2);
    }
    if at_pipe_gt(p) {
        return Operator::new(11, SyntaxKind::PIPE_GT, 2);
    }
    let assigned = at_joined(p, SyntaxKind::EQ);
    Operator::new(7, SyntaxKind::PIPE, 1).or_assignment(assigned, SyntaxKind::PIPEEQ)
}

/// Returns the operator that starts with the `=` that is next, if there is one: `=>` is none.
fn after_equals(p: &mut Parser<'_>) -> Operator
    requires first { (c : Condition) → Saw c (Kind 0 kinds.EQ) p.old true }
    requires some { 1 ≤ tokens p.old }
    ensures next { IsNext result p.old }
    ensures peeks { Peeks 2 p.old p.new }
{
    if at_joined(p, SyntaxKind::EQ) {
        return Operator::new(8, SyntaxKind::EQ2, 2);
    }
    if at_joined(p, SyntaxKind::R_ANGLE) {
        return Operator::none();
    }
    Operator::new(12, SyntaxKind::EQ, 1)
}

/// Returns the operator that starts with the `!` that is next, if there is one.
fn after_bang(p: &mut Parser<'_>) -> Operator
    requires first { (c : Condition) → Saw c (Kind 0 kinds.BANG) p.old true }
    requires some { 1 ≤ tokens p.old }
    ensures next { IsNext result p.old }
    ensures peeks { Peeks 1 p.old p.new }
{
    if at_joined(p, SyntaxKind::EQ) {
        return Operator::new(8, SyntaxKind::NEQ, 2);
    }
    Operator::none()
}

/// Returns the operator that starts with the `<` that is next.
fn after_left_angle(p: &mut Parser<'_>) -> Operator
    requires first { (c : Condition) → Saw c (Kind 0 kinds.L_ANGLE) p.old true }
    requires some { 1 ≤ tokens p.old }
    ensures next { IsNext result p.old }
    ensures peeks { Peeks 3 p.old p.new }
{
    if !at_joint(p) {
        return Operator::new(8, SyntaxKind::L_ANGLE, 1);
    }
    if p.at_second(SyntaxKind::EQ) {
        return Operator::new(8, SyntaxKind::LTEQ, 2);
    }
    if !p.at_second(SyntaxKind::L_ANGLE) {
        return Operator::new(8, SyntaxKind::L_ANGLE, 1);
    }
    if at_joined_after(p, SyntaxKind::EQ) {
        return Operator::new(12, SyntaxKind::SHLEQ, 3);
    }
    Operator::new(4, SyntaxKind::SHL, 2)
}

/// Returns the operator that starts with the `>` that is next.
fn after_right_angle(p: &mut Parser<'_>) -> Operator
    requires first { (c : Condition) → Saw c (Kind 0 kinds.R_ANGLE) p.old true }
    requires some { 1 ≤ tokens p.old }
    ensures next { IsNext result p.old }
    ensures peeks { Peeks 3 p.old p.new }
{
    if !at_joint(p) {
        return Operator::new(8, SyntaxKind::R_ANGLE, 1);
    }
    if p.at_second(SyntaxKind::EQ) {
        return Operator::new(8, SyntaxKind::GTEQ, 2);
    }
    if !p.at_second(SyntaxKind::R_ANGLE) {
        return Operator::new(8, SyntaxKind::R_ANGLE, 1);
    }
    if at_joined_after(p, SyntaxKind::EQ) {
        return Operator::new(12, SyntaxKind::SHREQ, 3);
    }
    Operator::new(4, SyntaxKind::SHR, 2)
}

/// Takes the operator that is next.
pub fn take_operator(p: &mut Parser<'_>, operator: Operator)
    requires next { IsNext operator p.old }
    requires is { 1 ≤ operator.height }
    ensures reads { (c : Condition) → Reads c (operators_at operator.height) p.old p.new }
    ensures takes { Takes 4096 p.old p.new }
{
    p.token(operator.kind, operator.width as usize);
}
