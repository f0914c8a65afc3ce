//! Tests of tokens and syntax trees.

mod lexer_tests;
mod syntax_tests;
mod syntax_trees_tests;
mod tree_numbers_tests;
