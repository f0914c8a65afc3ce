//! Summary of the facts about a script that are known after some rounds.
ghost use Rattle.std.specs.Prelude.{◌≡◌, List, ℕ, IfOk, MatchResult};
ghost use Rattle.compile.specs.Accepted.{IsScriptOf};
ghost use Rattle.flow.specs.View.{core_of};
ghost use Rattle.swt_command.specs.Files.{HasScript, StopsAt, contents};
ghost use Rattle.swt_command.specs.Means.{IsTold, ToldOf};

use crate::scripts::{at_script, source};
use bumpalo::Bump;
use compile::compile::read;
use flow::script::Flow;
use meaning::observer::RoundObserver;
use meaning::rounds_within;
use meaning_openings::fault::MeaningError;
use meaning_openings::live_limits::LiveLimits;
use paths::{Fault, StatementInstance};
use std::alloc::Global;
use swt_status::failure::CommandFailure;
use swt_status::stop::CommandStop;
use values::text::Text;

/// The lines, blocked statements and faults that are known after some rounds.
#[derive(Drop)]
pub struct MeaningSummary {
    /// The lines, sorted by their bytes.
    pub lines: Vec<Text>,
    /// The blocked statements, sorted by path, then by offset, without duplicates.
    pub blocked: Vec<StatementInstance>,
    /// The faults, sorted by path, then by offset of the statement, then by number, without duplicates.
    pub faults: Vec<Fault>,
    /// Whether the meaning is complete: one more round adds no fact.
    pub enough: bool,
}

/// Computes the summary of the first file's script. It stops when one more round adds no fact, or at the limit.
///
/// # Errors
///
/// Returns `Unread`, `Refused` or `Memory`.
pub(crate) fn worked_out<W: RoundObserver>(
    alloc: Global,
    arena: &Bump,
    files: &[Option<Vec<u8>>],
    watch: &W,
    limit: u32,
) -> Result<MeaningSummary, CommandStop>
    ensures { MatchResult result (ToldOf (contents files.now) limit)
        (λ stop. (stop.place ≡ 0) × StopsAt (contents files.now) 0 stop.trouble) }
{
    let flow = flow_of(alloc, arena, files)?;
    match meaning_summary_of(alloc, watch, &flow, limit) {
        Ok(told) => Ok(told),
        Err(_refused) => Err(CommandStop {
            place: 0,
            trouble: CommandFailure::Memory,
        }),
    }
}

/// Returns the flow of the first file's script, allocated in the arena.
///
/// # Errors
///
/// Returns `Unread`, `Refused` or `Memory`.
pub(crate) fn flow_of<'a>(
    alloc: Global,
    arena: &'a Bump,
    files: &[Option<Vec<u8>>],
) -> Result<Flow<&'a Bump>, CommandStop>
    ensures { MatchResult result (λ flow. HasScript (contents files.now) 0 (core_of flow))
        (λ stop. (stop.place ≡ 0) × StopsAt (contents files.now) 0 stop.trouble) }
{
    let source = source(files, 0)?;
    match read(alloc, arena, source) {
        Ok(flow) => Ok(flow),
        Err(fault) => Err(at_script(fault)),
    }
}

/// Computes the summary of a script. The number of live statements is not limited.
fn meaning_summary_of<W: RoundObserver>(
    alloc: Global,
    watch: &W,
    flow: &Flow<&Bump>,
    limit: u32,
) -> Result<MeaningSummary, MeaningError>
    requires { (src : List ℕ) × IsScriptOf src (core_of flow.now) }
    ensures { IfOk result (IsTold (core_of flow.now) limit) }
{
    let room = LiveLimits {
        alloc,
        most: usize::MAX,
    };
    let known = rounds_within(room, watch, flow, limit)?;
    let blocked = known.blocked()?;
    let faults = known.faults()?;
    Ok(MeaningSummary {
        lines: known.lines_sorted()?,
        blocked,
        faults,
        enough: known.finished(),
    })
}
