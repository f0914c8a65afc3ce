//! The public library interface of `swt`: compiles scripts, runs and replays code, writes reports, traces and listings,
//! and gives access to each stage.
#![tactic(auto)]

pub mod commands;
pub mod laws;
pub mod runs;
pub mod scripts;
pub mod stages;
pub mod words;

pub use assign_check::fault::AssignFault;
pub use board::board::Board;
pub use board::refusal::BoardRefusal;
pub use board::{Done, Fault, FaultKind, StatementInstance, Step, Work};
pub use board_program::program::Program;
pub use board_runs::report::{End, Report};
pub use compile::compile::Compiled;
pub use compile::fault::CompileFault;
pub use flow::script::Flow;
pub use lexer::fault::LexFault;
pub use lexer::token::Span;
pub use meaning_outcomes::knowledge::Knowledge;
pub use swt_arguments::code_form::CodeForm;
pub use swt_arguments::fault::LineFault;
pub use swt_arguments::line::Line;
pub use swt_trace::fault::{ReplayFault, WriteError};
pub use swt_trace::report::write_report;
pub use swt_trace::write::write_trace;
pub use syntax::error::ParseFault;
pub use syntax_trees::tree::Script;
pub use task_code::entry::Kind;
pub use task_code::event::Event;
pub use task_code::packed_event::PackedEvent;
pub use types::fault::TypeFault;
pub use types::typed::Typed;
pub use values::fault::OpFault;
pub use values::key::Key;
pub use values::map::Map;
pub use values::sink::{Sink, SinkFault};
pub use values::text::Text;
pub use values::value::{Scalar, Value};
pub use workers::fault::RunFault;
pub use workers::gate::{DirectGate, Gate};
pub use workers::run::PoolCount;
