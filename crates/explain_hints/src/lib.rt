//! Hints on refused scripts: for a lexical or syntactic fault, a guess at what to write instead, and for an unknown
//! name the nearest known one.
//!
//! The rules are lines of text: tests on the tokens near the fault, and a hint. `rules` reads them. A hint is a guess:
//! no other result depends on it.
#![tactic(auto)]

pub mod advice;
mod byte_rules;
pub mod characters;
mod classes;
mod comments;
mod definitions;
mod dictionaries;
mod form_rules;
pub mod functions;
mod keywords;
pub mod literals;
pub mod nearest;
mod rules;
mod sign_rules;
pub mod token_context;
pub mod unexpected;
pub mod variables;
mod word_rules;
