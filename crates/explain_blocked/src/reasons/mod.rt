//! Why a statement is blocked: its missing inputs with their reasons, and hints that say what to write instead.

pub mod inputs;
pub mod remedies;
