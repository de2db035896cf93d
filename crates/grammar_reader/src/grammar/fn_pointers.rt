//! Function pointer types.

ghost use Rattle.std.specs.Prelude.{false};
ghost use Rattle.rust_grammar.specs.Notation.{◌! };
ghost use Rattle.rust_grammar.specs.Rule as rules;
ghost use Rattle.rust_grammar.specs.Rule.{begins};
ghost use Rattle.rust_grammar.specs.Paths.{first_segment, type_args};
ghost use Rattle.rust_grammar.specs.Types as rows;
ghost use Rattle.rust_productions.specs.Looks.{Takes, Asks};
ghost use Rattle.rust_productions.specs.Reads.{looks, Gives, Reads, Saw};
ghost use Rattle.rust_productions.specs.Starts.{Starts};
ghost use Rattle.rust_productions.specs.declared.condition.Condition.{Condition};

use crate::grammar::attributes::{attribute, outer_attributes};
use crate::grammar::parts::{Part, expect_part};
use crate::grammar::paths::{Mode, next_segments, opt_type_args};
use crate::grammar::patterns::single_pattern;
use crate::grammar::types::{any_type, opt_ret_type};
use parser_events::message::Message;
use parser_input::syntax_kind::SyntaxKind;
use rust_productions::grammar::pattern_ranges::take_three_dots;
use rust_productions::grammar::types::{at_named_param, at_type, fn_ptr_words};
use rust_productions::parser::Parser;

/// Parses a function pointer type.
// unsafe extern "C" fn(u8) -> u8
#[cycle(grammar)]
pub(crate) fn fn_ptr_type(p: &mut Parser<'_>)
    requires begins { Starts rows.fn_ptr_begins p.old }
    ensures reads { (c : Condition) → Reads c rows.fn_ptr_type p.old p.new }
    ensures takes { Takes 4000 p.old p.new }
{
    let node = p.start();
    fn_ptr_words(p);
    expect_part(p, Part::FnPtrParams);
    opt_ret_type(p);
    node.complete(p, SyntaxKind::FN_PTR_TYPE);
}

/// Parses a parameter.
// #[a] b: u8
#[inline(never)]
#[cycle(grammar)]
pub(crate) fn fn_ptr_param(p: &mut Parser<'_>)
    requires begins { Starts (begins looks rows.fn_ptr_param) p.old }
    ensures reads { (c : Condition) → Reads c rows.fn_ptr_param p.old p.new }
    ensures takes { Takes 2700 p.old p.new }
{
    let node = p.start();
    attributed_or_bare(p);
    node.complete(p, SyntaxKind::PARAM);
}

/// Parses a parameter with its optional attributes, within its node.
// #[a] b: u8
#[cycle(grammar)]
fn attributed_or_bare(p: &mut Parser<'_>)
    requires begins { Starts (begins looks rows.fn_ptr_param) p.old }
    ensures reads { (c : Condition) → Reads c rows.in_fn_ptr_param p.old p.new }
    ensures takes { Takes 2700 p.old p.new }
{
    if p.at_new(SyntaxKind::POUND) {
        attribute(p);
        outer_attributes(p);
        dots_name_or_type(p);
        return;
    }
    bare_param(p);
}

/// Parses a parameter without attributes, within its node.
// b: u8
#[cycle(grammar)]
fn bare_param(p: &mut Parser<'_>)
    requires begins { Starts (begins looks rows.dots_name_or_type) p.old }
    ensures reads { (c : Condition) → Reads c rows.dots_name_or_type p.old p.new }
    ensures takes { Takes 2710 p.old p.new }
{
    if p.at_dots_dot() {
        take_three_dots(p);
        return;
    }
    if at_named_param(p) {
        named_param(p);
        return;
    }
    any_type(p);
}

/// Parses a parameter after its attributes.
// b: u8
#[cycle(grammar)]
fn dots_name_or_type(p: &mut Parser<'_>)
    ensures reads { (c : Condition) → Reads c rows.dots_name_or_type p.old p.new }
    ensures asks { Asks 40 p.old p.new }
{
    if p.at_dots_dot() {
        take_three_dots(p);
        return;
    }
    if at_named_param(p) {
        named_param(p);
        return;
    }
    if at_type(p) {
        any_type(p);
        return;
    }
    missing_type(p);
}

/// Parses the type of a parameter where none starts: emits an error within the nodes of its path.
#[cycle(grammar)]
fn missing_type(p: &mut Parser<'_>)
    requires none { (c : Condition) → Saw c (looks rules.any_type) p.old false }
    ensures gives { (c : Condition) → Gives rules.any_type c p.old p.new }
    ensures asks { Asks 14 p.old p.new }
{
    let node = p.start();
    missing_path(p);
    node.complete(p, SyntaxKind::PATH_TYPE);
}

/// Parses the path of a type where none starts: emits an error within the nodes of the path.
#[cycle(grammar)]
fn missing_path(p: &mut Parser<'_>)
    requires none { (c : Condition) → Saw c (looks rules.any_type) p.old false }
    ensures gives { (c : Condition) → Gives rules.type_path c p.old p.new }
    ensures asks { Asks 13 p.old p.new }
{
    let frame = p.start();
    missing_segment(p);
    let frame = next_segments(p, frame, Mode::Type);
    frame.abandon(p);
}

/// Emits an error for the first segment of a path, within the nodes of the path, and parses the
/// optional arguments after it.
#[cycle(grammar)]
fn missing_segment(p: &mut Parser<'_>)
    requires none { (c : Condition) → Saw c (looks rules.any_type) p.old false }
    ensures reads { (c : Condition) → Reads c (first_segment type_args) p.old p.new }
    ensures asks { Asks 9 p.old p.new }
{
    let path = p.start();
    let segment = p.start();
    p.error(Message::Expected(SyntaxKind::NAME_REF));
    opt_type_args(p);
    segment.complete(p, SyntaxKind::PATH_SEGMENT);
    path.complete(p, SyntaxKind::PATH);
}

/// Parses a parameter with a name.
// b: u8
#[cycle(grammar)]
fn named_param(p: &mut Parser<'_>)
    requires begins { Starts (looks rules.single_pattern) p.old }
    ensures reads { (c : Condition) → Reads c rows.named_param p.old p.new }
    ensures takes { Takes 2800 p.old p.new }
{
    single_pattern(p);
    p.expect(SyntaxKind::COLON);
    dots_or_type(p);
}

/// Parses `...` or a type; emits an error if there is neither.
// u8
#[cycle(grammar)]
fn dots_or_type(p: &mut Parser<'_>)
    ensures reads { (c : Condition) → Reads c rows.dots_or_type p.old p.new }
    ensures asks { Asks 19 p.old p.new }
{
    if p.at_dots_dot() {
        take_three_dots(p);
        return;
    }
    expect_part(p, Part::Type);
}
