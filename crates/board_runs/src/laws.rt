//! Laws: the code and the events determine a report.
ghost use Rattle.std.specs.Prelude.{◌≡◌, ℕ};
ghost use Rattle.task_code.specs.Code.{Code};
ghost use Rattle.task_code.specs.Whole.{IsCode};
ghost use Rattle.board_runs.specs.declared.report.Report.{Report};
ghost use Rattle.board_runs.specs.Report.{Reports};
ghost use Rattle.board_runs.specs.Same.{SameReport};

/// Proves that two reports of the same code and the same events agree, whatever their limits.
pub fn reports_are_told()
    ensures { (C : Code) → IsCode C → (limit other : ℕ) (r s : Report) → Reports C limit r → Reports C other s
        → r.history.items ≡ s.history.items → SameReport r s }
{}
