//! The productions that call each other, each as a function that reads by a parser and marks its
//! nodes.

pub mod attributes;
pub(crate) mod const_args;
pub mod entries;
pub mod expressions;
pub(crate) mod fields;
pub(crate) mod fn_pointers;
pub(crate) mod generic_args;
pub(crate) mod generic_params;
pub(crate) mod items;
pub(crate) mod list_end;
pub(crate) mod lists;
pub(crate) mod new_bounds;
pub(crate) mod new_params;
pub mod or_patterns;
pub(crate) mod params;
pub(crate) mod parts;
pub(crate) mod paths;
pub(crate) mod pattern_ranges;
pub(crate) mod patterns;
pub(crate) mod statements;
pub mod types;
