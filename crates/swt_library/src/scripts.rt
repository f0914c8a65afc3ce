//! Compilation of scripts to code.
ghost use Rattle.std.specs.Prelude.{◌≡◌, ◌<◌, ◌++◌, IfOk, IfErr, OnOk, OnErr};
ghost use Rattle.compile.specs.Accepted.{IsUnfit};
ghost use Rattle.compile.specs.Compiled.{IsCompiled};
ghost use Rattle.values.specs.Sinks.{Beginning};

use crate::stages::emit;
use board_program::program::Program;
use compile::compile::with_flow;
use compile::fault::CompileFault;
use std::alloc::{AllocError, Allocator, Global};
use std::marker::Model;
use swt_trace::fault::WriteError;
use values::sink::{Sink, write_all};

/// The code of a script, with its precomputed tables and the text of its listing. It does not borrow a syntax tree.
#[derive(Drop)]
pub struct CompiledScript {
    program: Program,
    text: Vec<u8>,
}

impl Model for CompiledScript {
    ghost use Rattle.std.specs.Coded.{codes};
    ghost use Rattle.task_code.specs.Tokens.{expr_code, exprs_code};
    ghost use Rattle.swt_library.specs.Scripts.{ListedCode};

    ghost Value = { ListedCode };

    ghost coded = { Prim.hlevel (codes, expr_code (Prim.hlevel codes), exprs_code (Prim.hlevel codes)) };

    ghost view = { λ c. record { program = c.program; text = c.text.items } };
}

impl CompiledScript {
    /// Joins a program and the text of its listing.
    pub(crate) fn of(program: Program, text: Vec<u8>) -> CompiledScript
        ensures { result ≡ record { program = program; text = text.items } }
    {
        CompiledScript { program, text }
    }

    /// Returns the code, with its tables.
    pub fn program(&self) -> &Program
        ensures { result.now ≡ self.now.program }
    {
        &self.program
    }

    /// Returns the code, with its tables, without the listing.
    pub fn into_program(self) -> Program
        ensures { result ≡ self.program }
    {
        let CompiledScript { program, text: _ } = self;
        program
    }

    /// Creates a copy of the code. The entries are shared; the listing is copied.
    ///
    /// # Errors
    ///
    /// Returns `AllocError` if an allocation fails.
    pub fn copy(&self) -> Result<CompiledScript, AllocError>
        ensures program { IfOk result (λ code. code.program ≡ self.now.program) }
        ensures text { IfOk result (λ code. code.text ≡ self.now.text) }
    {
        let alloc = *self.text.allocator();
        let program = self.program.share()?;
        let text = Vec::from_slice(alloc, self.text.as_slice())?;
        Ok(CompiledScript { program, text })
    }

    /// Writes the listing: the bodies of the code, and the entries of each.
    ///
    /// # Errors
    ///
    /// Returns `Write` if a write fails. The sink has then received a prefix of the listing.
    pub fn listing<W: Sink>(&self, sink: &mut W) -> Result<(), WriteError>
        requires { W.failures sink.old < u64.MAX }
        ensures ok { OnOk result (W.taken sink.new ≡ W.taken sink.old ++ self.now.text) }
        ensures err { OnErr result (Beginning (W.taken sink.old) self.now.text (W.taken sink.new)) }
        ensures failed { OnErr result (W.failures sink.old < W.failures sink.new) }
        ensures none_failed { OnOk result (W.failures sink.new ≡ W.failures sink.old) }
    {
        write_all(sink, self.text.as_slice())?;
        Ok(())
    }
}

/// Compiles a script. Syntax trees and flows are allocated in `alloc`, and the code in `machine`.
///
/// # Errors
///
/// Returns the refusal of the first stage that refuses the script, or `Memory` if an allocation fails.
pub fn compile<A: Allocator + Clone>(
    machine: Global,
    alloc: A,
    src: &[u8],
) -> Result<CompiledScript, CompileFault>
    ensures code { IfOk result (λ code. IsCompiled src.now code.program) }
    ensures unfit { IfErr result (λ fault. IsUnfit src.now fault) }
{
    let compiled = with_flow(machine, alloc, src)?;
    match emit(machine, &compiled) {
        Ok(code) => Ok(code),
        Err(_) => Err(CompileFault::Memory),
    }
}
