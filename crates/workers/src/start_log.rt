//! The ghost log of all work begun under the lock. At run time only its length exists, as one atomic word.
//!
//! A thread that ends an item shows by its log prefix that the work is in the log, and so belongs to the item.
ghost use Rattle.std.specs.Prelude.{◌≡◌, ◌<◌, ◌^◌, ◌++◌, ◌∷◌, [], length, IsTrue};
ghost use mathlib.Core.List.{IsPrefix};
ghost use Rattle.workers.specs.StartLog.{head_of};

use crate::gate::RunParams;
use board_work::work::Work;
use logbook::{Gain, Offer, Plain, Play, Rule, Seen, Start, Word};
use std::marker::{Model, PhantomData};

/// The protocol of the log's book: its first word is the length of the log.
pub struct LogProtocol;

impl Rule<Work, u64> for LogProtocol {
    ghost use Rattle.std.specs.Prelude.{[]};
    ghost use base.Fml.{ftrue};
    ghost use Rattle.workers.specs.StartLog.{IsCounted};

    ghost holds = { λ cells log. IsCounted cells log };

    ghost first = { [] };

    ghost hinted = { λ n log. Unit {0} };

    ghost shows = { λ log. [] };

    ghost keeps = { λ names log. ftrue };

    ghost moves = { λ ask before after answer. Unit {0} };
}

/// A gain that transfers nothing.
pub struct NoTrade;

impl Gain<Work, u64> for NoTrade {
    ghost use base.Fml.{ftrue};

    ghost after = { λ names about answer. ftrue };
}

/// A step that appends work to the log.
pub struct AppendStep;

impl Play<Work, u64> for AppendStep {
    ghost use Rattle.workers.specs.StartLog.{Adds};

    ghost then = { Adds };
}

impl Plain<Work, Work, u64> for AppendStep {
    ghost use Rattle.std.specs.Prelude.{None};

    ghost ask = { λ work. work };

    ghost state = { λ work. None };
}

/// A book with an empty log that is not yet bound to a run.
pub struct NewLog {
    head: Word<Work, u64, LogProtocol>,
    seen: Seen<Work, u64, LogProtocol>,
    pub ghost empty: { seen.log ≡ [] },
    pub ghost head_is: { head ≡ head_of seen.book },
}

impl NewLog {
    pub fn new() -> NewLog {
        let (seen, mut first, _second) = Seen::open(Start::alone(), 0, 0);
        NewLog {
            head: Word::tracked(0, &mut first),
            seen,
        }
    }

    /// Binds the book to the run. Returns its log word and an empty prefix.
    pub fn named<J: RunParams>(self) -> (StartLog<J>, LogPrefix<J>)
        requires { self.seen.book ≡ J.book }
        ensures { result.1 ≡ [] }
    {
        let NewLog { head, seen } = self;
        (
            StartLog {
                head,
                of: PhantomData,
            },
            LogPrefix {
                len: 0,
                seen,
                of: PhantomData,
            },
        )
    }
}

/// The word of the run's book that holds the length of the log. It is guarded by the lock.
#[derive(Drop)]
pub struct StartLog<J: RunParams> {
    head: Word<Work, u64, LogProtocol>,
    of: PhantomData<J>,
    ghost head_is: { head ≡ head_of J.book },
}

/// An observed prefix of the log. At run time it consists of its length alone, and it can be copied.
#[derive(Drop)]
pub struct LogPrefix<J: RunParams> {
    len: u64,
    seen: Seen<Work, u64, LogProtocol>,
    of: PhantomData<J>,
}

impl<J: RunParams> Model for LogPrefix<J> {
    ghost use Rattle.std.specs.Prelude.{◌≡◌, List, length};
    ghost use Rattle.std.specs.Coded.{codes};
    ghost use Rattle.task_code.specs.Tokens.{expr_code, exprs_code};
    ghost use Rattle.board_work.specs.Assigned.{Assigned};

    ghost Value = { List Assigned };

    ghost coded = { Prim.hlevel (codes, expr_code (Prim.hlevel codes), exprs_code (Prim.hlevel codes)) };

    ghost view = { λ f. f.seen.log };

    ghost invariant = { λ f. (f.len ≡ length f.seen.log) × (f.seen.book ≡ J.book) };
}

impl<J: RunParams> LogPrefix<J> {
    /// Returns the length of the prefix.
    pub fn len(&self) -> u64
        ensures { result ≡ length self.now }
    {
        self.len
    }

    /// Returns a copy of the prefix.
    pub fn again(&self) -> LogPrefix<J>
        ensures { result ≡ self.now }
    {
        LogPrefix {
            len: self.len,
            seen: self.seen.again(),
            of: PhantomData,
        }
    }

    /// Returns true if the prefix is at most as long as `other`, which makes it a prefix of `other`. Takes no step of
    /// the book.
    pub fn is_prefix_of(&self, other: &LogPrefix<J>) -> bool
        ensures { IsTrue result → IsPrefix self.now other.now }
    {
        let mut both = self.seen.again();
        both.learn(&other.seen);
        if self.len > other.len {
            return false;
        }
        true
    }

    /// Appends work to the log by one compare-exchange, and returns true if it succeeded. It fails if the log is longer
    /// than the prefix; the prefix is then extended to the length that was found.
    pub fn add(&mut self, book: &StartLog<J>, work: &Work) -> bool
        requires room { length self.old < 2 ^ 62 }
        ensures { IsTrue result → self.new ≡ self.old ++ work.now ∷ [] }
    {
        let mut offer: Offer<Work, u64, LogProtocol, NoTrade> = self
            .seen
            .plain::<NoTrade, Work, AppendStep>(work);
        let mut pen = self.seen.no_pen();
        let len = self.len;
        let found = book
            .head
            .compare_exchange::<AppendStep, NoTrade>(
                len,
                len + 1,
                &mut self.seen,
                &mut offer,
                &mut pen,
            );
        self.len = if found == len { len + 1 } else { found };
        found == len
    }
}
