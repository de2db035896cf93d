//! The productions, each as a function that reads by a parser and marks its nodes.
//!
//! A contract names the production, or the rule, that the function reads, and says how many looks
//! it makes at most: where it takes tokens these pay for the looks.

pub mod attributes;
pub mod const_args;
pub mod expression_words;
pub mod expressions;
pub mod fields;
pub mod generic_args;
pub mod generic_params;
pub mod item_words;
pub mod items;
pub mod lists;
pub mod macros;
pub mod match_arms;
pub mod names;
pub mod operands;
pub mod operators;
pub mod params;
pub mod paths;
pub mod pattern_ranges;
pub mod patterns;
pub mod statements;
pub mod token_trees;
pub mod types;
pub mod use_trees;
pub mod visibility;
