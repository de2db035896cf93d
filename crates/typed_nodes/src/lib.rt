//! Typed nodes for what tools ask most, and the parts of typed nodes by their names.
//!
//! Each accessor returns the first child of one kind, or `None` if there is none. `docs/TREES.md` has
//! the children of each node.
#![tactic(auto)]

pub mod after;
pub mod nodes;
pub mod parts;
pub mod shared;

pub use nodes::{Attr, Call, Enum, Impl, Let, MethodCall};
pub use parts::{
    AttrParts, CallParts, EnumParts, FnParts, ImplParts, LetParts, MethodCallParts, StructParts,
    UseParts,
};
pub use shared::{
    HasArgList, HasAttributes, HasElements, HasGenericParams, HasName, HasVisibility,
};
pub use syntax_editor::{Fn, HasAttrs, ItemList, SourceFile, StmtList, Struct, Use};
pub use syntax_tree::AstNode;
