//! Rounds over small scripts.
use crate::asserts::{boxed, holds, is_equal, only};
use crate::doing::{flow_of, known_of};
use explain_inputs::blocked_statement::{BlockedStatement, inputs_blocking};
use flow::script::Flow;
use flow_index::statement_index::StatementIndex;
use meaning::observer::{NoObserver, RoundObserver, RoundProgress};
use meaning::{rounds, rounds_within};
use meaning_openings::fault::MeaningError;
use meaning_openings::live_limits::LiveLimits;
use meaning_outcomes::fixpoint::compute_fixpoint;
use meaning_outcomes::knowledge::Knowledge;
use meaning_round::state::RoundState;
use paths::{Fault, StatementInstance};
use std::alloc::Global;
use std::process::Abort;
use std::sync::atomic::{AtomicU64, Ordering};
use values::key::Key;

/// A script whose first assignment waits for its second.
const SWAPPED: &[u8] = b"int x; int y; x = y + 1; y = 2; printf(\"%i\", x);";

/// It prints this line, and no other.
fn prints_line(rt: &impl Abort, known: &Knowledge, line: &[u8]) {
    let lines = known.lines_sorted().expect(rt, "memory");
    is_equal(rt, only(rt, &lines).as_bytes(), line);
}

/// The statements that are blocked.
fn blocked_in(rt: &impl Abort, known: &Knowledge) -> Vec<StatementInstance> {
    known.blocked().expect(rt, "memory")
}

/// The faults.
fn faults_in(rt: &impl Abort, known: &Knowledge) -> Vec<Fault> {
    known.faults().expect(rt, "memory")
}

/// It has no fault, and nothing in it is blocked.
fn ends_well(rt: &impl Abort, known: &Knowledge) {
    holds(rt, faults_in(rt, known).is_empty());
    holds(rt, blocked_in(rt, known).is_empty());
}

/// Three rounds tell all of it.
fn is_known_in_three_rounds(rt: &impl Abort, known: &Knowledge) {
    is_equal(
        rt,
        (known.finished(), known.is_clean(), known.rounds),
        (true, true, 3),
    );
    prints_line(rt, known, b"3");
    ends_well(rt, known);
}

#[test]
fn a_value_is_used_in_the_round_behind_it(rt: HostRuntime) {
    let known = known_of(&rt, rt.alloc(), SWAPPED, 10);
    is_known_in_three_rounds(&rt, &known);
}

/// The knowledge of a flow before its first round, where each ready block is open and each finished array is closed.
fn known_at_first(rt: &impl Abort, alloc: Global, flow: &Flow<Global>) -> Box<Knowledge> {
    let mut state = RoundState::new(alloc, flow).expect(rt, "memory");
    let most = usize::MAX;
    compute_fixpoint(&mut state, LiveLimits { alloc, most }).expect(rt, "memory");
    let known = Knowledge::of(alloc, state, 0, false).expect(rt, "memory");
    boxed(rt, alloc, known)
}

#[test]
fn an_array_without_writers_is_closed_at_first(rt: HostRuntime) {
    let flow = flow_of(&rt, rt.alloc(), b"int A[]; int B[]; B[0] = 1;");
    let known = known_at_first(&rt, rt.alloc(), &flow);
    is_equal(&rt, (known.rounds, known.finished()), (0, false));
    is_equal(&rt, known.fact_base.closed.len(), 1);
}

#[test]
fn one_round_is_not_enough(rt: HostRuntime) {
    let first = known_of(&rt, rt.alloc(), SWAPPED, 1);
    is_equal(&rt, first.finished(), false);
}

/// Returns true if there are two statements, which stand at these offsets.
fn stand_at(statements: &[StatementInstance], first: usize, second: usize) -> bool {
    match statements {
        [one, other] => one.at == first && other.at == second,
        _ => false,
    }
}

#[test]
fn statements_in_a_circle_are_blocked(rt: HostRuntime) {
    let known = known_of(&rt, rt.alloc(), b"int x; int y; x = y; y = x;", 10);
    holds(&rt, known.finished());
    holds(&rt, stand_at(blocked_in(&rt, &known).as_slice(), 14, 21));
}

/// The statement at 21 waits for one input.
fn lacks_one(rt: &impl Abort, waiting: &BlockedStatement<'_, '_, Global>) {
    is_equal(
        rt,
        (waiting.site.at(), waiting.instance, waiting.missing.len()),
        (21, 0, 1),
    );
}

/// This statement waits for what is not known.
fn waits(
    rt: &impl Abort,
    alloc: Global,
    sites: &StatementIndex<'_, Global>,
    known: &Knowledge,
    statement: &StatementInstance,
) {
    let found = inputs_blocking(alloc, sites, known, statement).expect(rt, "memory");
    let waiting = found.expect(rt, "it waits");
    lacks_one(rt, &waiting);
}

/// The second of two blocked statements waits for what is not known.
fn second_waits(
    rt: &impl Abort,
    alloc: Global,
    sites: &StatementIndex<'_, Global>,
    known: &Knowledge,
) {
    let blocked = blocked_in(rt, known);
    assert_eq!(rt; blocked.len(), 2);
    waits(rt, alloc, sites, known, &blocked[1]);
}

/// The knowledge of a flow after at most ten rounds.
fn known_over(rt: &impl Abort, alloc: Global, flow: &Flow<Global>) -> Box<Knowledge> {
    let known = rounds(alloc, flow, 10).expect(rt, "memory");
    boxed(rt, alloc, known)
}

/// The places of a flow's statements.
fn sites_of<'a>(
    rt: &impl Abort,
    alloc: Global,
    flow: &'a Flow<Global>,
) -> Box<StatementIndex<'a, Global>> {
    let sites = StatementIndex::of(alloc, flow).expect(rt, "memory");
    boxed(rt, alloc, sites)
}

/// Of two statements in a circle the second waits for the first one's variable.
#[test]
fn a_blocked_statement_waits_for_what_is_not_known(rt: HostRuntime) {
    let flow = flow_of(&rt, rt.alloc(), b"int x; int y; x = y; y = x + 1;");
    let known = known_over(&rt, rt.alloc(), &flow);
    let sites = sites_of(&rt, rt.alloc(), &flow);
    second_waits(&rt, rt.alloc(), &sites, &known);
}

/// It has one fault, of the turn of key 5 of a loop.
fn has_fault_in_turn(rt: &impl Abort, known: &Knowledge) {
    let faults = faults_in(rt, known);
    let step = only(rt, &only(rt, &faults).statement.path);
    holds(rt, step.key.is_same(&Key::Number(5)));
}

/// A loop over an array that closes, and a fault in one of its turns.
#[test]
fn turns_of_a_loop_are_places(rt: HostRuntime) {
    let script = b"int A[]; A[5] = 0; A[7] = 1; foreach v, k in A { printf(\"%i\", k %/ v); }";
    let known = known_of(&rt, rt.alloc(), script, 50);
    holds(&rt, known.finished());
    prints_line(&rt, &known, b"7");
    has_fault_in_turn(&rt, &known);
}

/// Returns true if the rounds of a script are over, where at most `most` turns and statements may be live.
fn end_within(
    rt: &impl Abort,
    alloc: Global,
    script: &[u8],
    most: usize,
) -> Result<bool, MeaningError> {
    let flow = flow_of(rt, alloc, script);
    match rounds_within(LiveLimits { alloc, most }, &NoObserver, &flow, 50) {
        Ok(known) => Ok(known.finished()),
        Err(fault) => Err(fault),
    }
}

/// A script is too large for `most` live statements, and not for a hundred.
fn is_larger(rt: &impl Abort, alloc: Global, script: &[u8], most: usize) {
    is_equal(
        rt,
        end_within(rt, alloc, script, most),
        Err(MeaningError::TooLarge),
    );
    is_equal(rt, end_within(rt, alloc, script, 100), Ok(true));
}

/// A hundred turns, without statements and with one each.
#[test]
fn more_is_live_than_there_is_room_for(rt: HostRuntime) {
    is_larger(&rt, rt.alloc(), b"foreach i in [1:100] { }", 50);
    is_larger(
        &rt,
        rt.alloc(),
        b"foreach i in [1:99] { printf(\"%i\", i); }",
        40,
    );
}

/// Many turns, and a function that calls itself twice.
#[test]
fn what_has_no_end_soon_is_too_large(rt: HostRuntime) {
    let scripts: [&[u8]; 2] = [
        b"foreach i in [1:4294967296] { }",
        b"() f() { f(); f(); } f();",
    ];
    for script in scripts {
        is_equal(
            &rt,
            end_within(&rt, rt.alloc(), script, 1000),
            Err(MeaningError::TooLarge),
        );
    }
}

/// Keeps the progress of the rounds that was reported last.
#[derive(Drop)]
struct LastRounds {
    done: AtomicU64,
    live: AtomicU64,
}

impl RoundObserver for LastRounds {
    fn learn(&self, rounds: RoundProgress) {
        self.done.store(u64::from(rounds.done), Ordering::SeqCst);
        self.live.store(rounds.live as u64, Ordering::SeqCst);
    }
}

#[test]
fn who_watches_learns_how_far_the_rounds_are(rt: HostRuntime) {
    let noted = LastRounds {
        done: AtomicU64::new(0),
        live: AtomicU64::new(0),
    };
    let flow = flow_of(&rt, rt.alloc(), SWAPPED);
    let room = LiveLimits {
        alloc: rt.alloc(),
        most: usize::MAX,
    };
    let known = rounds_within(room, &noted, &flow, 10).expect(&rt, "memory");
    let known = boxed(&rt, rt.alloc(), known);
    is_equal(
        &rt,
        noted.done.load(Ordering::SeqCst),
        u64::from(known.rounds),
    );
    holds(&rt, noted.live.load(Ordering::SeqCst) > 0);
}
