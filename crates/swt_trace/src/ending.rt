//! The end of a run as a trace names it.
ghost use Rattle.std.specs.Prelude.{◌≡◌, []};
ghost use Rattle.swt_trace.specs.Report.{ending_of};
ghost use Rattle.swt_trace.specs.Trace.{ending_line};

use board_runs::report::End;

/// The end of a run, as the last line of a trace names it.
#[derive(Clone, Copy, PartialEq, Eq, Debug, Drop)]
pub enum Ending {
    /// `Q`: there is no fault, and no item is ready or running.
    Quiet,
    /// `F`: a fault occurred.
    Fault,
    /// `L`: the run reached its limit of events.
    Limit,
}

impl Ending {
    /// Converts the end of a report.
    pub(crate) fn of(end: &End) -> Ending
        ensures { result ≡ ending_of end.now }
    {
        match end {
            End::Quiet => Ending::Quiet,
            End::Fault(_) => Ending::Fault,
            End::Limit => Ending::Limit,
        }
    }

    /// Returns the line that names this end.
    pub(crate) fn line(self) -> &'static [u8]
        ensures { result.now ≡ ending_line self [] }
    {
        match self {
            Ending::Quiet => b"Q\n",
            Ending::Fault => b"F\n",
            Ending::Limit => b"L\n",
        }
    }
}
