//! Tests of typed nodes: their parts in a text.
use rust_source::{
    AstNode, Attr, AttrParts, Call, CallParts, Edition, Enum, EnumParts, Fn, FnParts, HasArgList,
    HasAttributes, HasElements, HasGenericParams, HasName, HasVisibility, Impl, ImplParts, Let,
    LetParts, MethodCall, MethodCallParts, Source, SourceFile, Struct, StructParts, SyntaxNode,
    Use, UseParts,
};
use std::alloc::{AllocError, Global};
use std::test::Fail;

const TEXT: &str =
    "#[a = 1]\n#[b]\npub enum E<T> where T: C { V }\n\nuse c::{d};\n\nimpl<T> E<T> { fn g() {} }\n\nstruct S(u8);\n\nstruct R { a: u8 }\n\npub(crate) fn f<T>(x: u8) -> u8 where T: C {\n    let Some(y) = x.h::<u8>(1) else { return k(x, 2) };\n    y\n}\n";

/// Returns the first node of a type in `source`.
fn first<N: AstNode>(source: &Source) -> Result<Option<N>, AllocError> {
    for node in source.root().descendants(source.alloc())? {
        if let Some(typed) = N::cast(node?) {
            return Ok(Some(typed));
        }
    }
    Ok(None)
}

/// Returns the last node of a type in `source`.
fn last<N: AstNode + Drop>(source: &Source) -> Result<Option<N>, AllocError> {
    let mut found = None;
    for node in source.root().descendants(source.alloc())? {
        if let Some(typed) = N::cast(node?) {
            found = Some(typed);
        }
    }
    Ok(found)
}

/// Returns `true` if there is a part, and this is its text.
fn is(part: Option<SyntaxNode>, text: &str) -> Result<bool, AllocError> {
    match part {
        Some(part) => Ok(part.text()?.eq_str(text)),
        None => Ok(false),
    }
}

/// Returns the source of the text.
fn source(rt: &HostRuntime) -> Result<Source, Fail> {
    Ok(Source::open(rt.alloc(), Edition::Edition2021, TEXT)?)
}

/// Returns the number of attributes of an enum.
fn attributes(alloc: Global, node: &Enum) -> Result<u8, AllocError> {
    let mut count = 0u8;
    for attribute in node.attributes(alloc)? {
        let _attribute = attribute?;
        count = count.saturating_add(1);
    }
    Ok(count)
}

/// Returns `true` if the parts of the enum are right.
fn has_enum(source: &Source) -> Result<bool, AllocError> {
    let alloc = source.alloc();
    let Some(node) = first::<Enum>(source)? else {
        return Ok(false);
    };
    Ok(
        is(node.visibility(alloc)?, "pub")?
            & is(node.name(alloc)?, "E")?
            & is(node.generic_param_list(alloc)?, "<T>")?
            & is(node.where_clause(alloc)?, "where T: C")?
            & is(node.variant_list(alloc)?, "{ V }")?
            & (attributes(alloc, &node)? == 2),
    )
}

/// Returns `true` if the parts of the attribute are right.
fn has_attribute(source: &Source) -> Result<bool, AllocError> {
    let alloc = source.alloc();
    let Some(node) = first::<Attr>(source)? else {
        return Ok(false);
    };
    is(node.meta(alloc)?, "a = 1")
}

#[test]
fn parts_of_enum_and_attribute(rt: HostRuntime) -> Result<(), Fail> {
    let source = source(&rt)?;
    let is_right = source.errors().is_empty() & has_enum(&source)? & has_attribute(&source)?;
    drop(source);
    assert!(rt; is_right);
    Ok(())
}

/// Returns `true` if the parts of the file are right.
fn has_file(source: &Source) -> Result<bool, AllocError> {
    let alloc = source.alloc();
    let Some(node) = first::<SourceFile>(source)? else {
        return Ok(false);
    };
    let mut count = 0u8;
    for child in node.elements(alloc)? {
        let _child = child?;
        count = count.saturating_add(1);
    }
    Ok(count == 6)
}

/// Returns `true` if the parts of the use are right.
fn has_use(source: &Source) -> Result<bool, AllocError> {
    let alloc = source.alloc();
    let Some(node) = first::<Use>(source)? else {
        return Ok(false);
    };
    Ok(is(node.use_tree(alloc)?, "c::{d}")? & node.visibility(alloc)?.is_none())
}

/// Returns `true` if the parts of the impl are right.
fn has_impl(source: &Source) -> Result<bool, AllocError> {
    let alloc = source.alloc();
    let Some(node) = first::<Impl>(source)? else {
        return Ok(false);
    };
    Ok(
        is(node.generic_param_list(alloc)?, "<T>")?
            & is(node.assoc_item_list(alloc)?, "{ fn g() {} }")?,
    )
}

/// Returns `true` if the parts of the tuple struct are right.
fn has_tuple_struct(source: &Source) -> Result<bool, AllocError> {
    let alloc = source.alloc();
    let Some(node) = first::<Struct>(source)? else {
        return Ok(false);
    };
    Ok(is(node.tuple_field_list(alloc)?, "(u8)")? & node.record_field_list(alloc)?.is_none())
}

/// Returns `true` if the parts of the struct are right.
fn has_struct(source: &Source) -> Result<bool, AllocError> {
    let alloc = source.alloc();
    let Some(node) = last::<Struct>(source)? else {
        return Ok(false);
    };
    Ok(is(node.record_field_list(alloc)?, "{ a: u8 }")? & is(node.name(alloc)?, "R")?)
}

#[test]
fn parts_of_items(rt: HostRuntime) -> Result<(), Fail> {
    let source = source(&rt)?;
    let is_right = has_file(&source)?
        & has_use(&source)?
        & has_impl(&source)?
        & has_tuple_struct(&source)?
        & has_struct(&source)?;
    drop(source);
    assert!(rt; is_right);
    Ok(())
}

/// Returns `true` if the parts of the fn are right.
fn has_fn(source: &Source) -> Result<bool, AllocError> {
    let alloc = source.alloc();
    let Some(node) = last::<Fn>(source)? else {
        return Ok(false);
    };
    Ok(
        is(node.visibility(alloc)?, "pub(crate)")?
            & is(node.name(alloc)?, "f")?
            & is(node.param_list(alloc)?, "(x: u8)")?
            & is(node.ret_type(alloc)?, "-> u8")?
            & node.body(alloc)?.is_some(),
    )
}

/// Returns `true` if the parts of the let are right.
fn has_let(source: &Source) -> Result<bool, AllocError> {
    let alloc = source.alloc();
    let Some(node) = first::<Let>(source)? else {
        return Ok(false);
    };
    Ok(
        is(node.pattern(alloc)?, "Some(y)")?
            & is(node.initializer(alloc)?, "x.h::<u8>(1)")?
            & is(node.let_else(alloc)?, "else { return k(x, 2) }")?,
    )
}

/// Returns `true` if the parts of the method call are right.
fn has_method_call(source: &Source) -> Result<bool, AllocError> {
    let alloc = source.alloc();
    let Some(node) = first::<MethodCall>(source)? else {
        return Ok(false);
    };
    Ok(
        is(node.receiver(alloc)?, "x")?
            & is(node.name_ref(alloc)?, "h")?
            & is(node.generic_arg_list(alloc)?, "::<u8>")?
            & is(node.arg_list(alloc)?, "(1)")?,
    )
}

/// Returns `true` if the parts of the call are right.
fn has_call(source: &Source) -> Result<bool, AllocError> {
    let alloc = source.alloc();
    let Some(node) = first::<Call>(source)? else {
        return Ok(false);
    };
    Ok(is(node.callee(alloc)?, "k")? & is(node.arg_list(alloc)?, "(x, 2)")?)
}

#[test]
fn parts_of_function_and_expressions(rt: HostRuntime) -> Result<(), Fail> {
    let source = source(&rt)?;
    let is_right = has_fn(&source)?
        & has_let(&source)?
        & has_method_call(&source)?
        & has_call(&source)?;
    drop(source);
    assert!(rt; is_right);
    Ok(())
}
