//! The value of a cell as other entries read it: the expression of a plain cell, or else the datum of the cell.
ghost use Rattle.std.specs.Prelude.{◌≡◌, map, OnOk, IfOk};
ghost use Rattle.flow.specs.View.{form_view};
ghost use Rattle.task_code.specs.View as code_view;
ghost use Rattle.code_rules.specs.CodeNames.{over, wanted};
ghost use Rattle.code_rules.specs.IsCodeOf.{seen_as};
ghost use Rattle.code_rules.specs.Room.{FormRoom};
ghost use Rattle.emit_cells.specs.PlainNeeds.{need_of, IsReady, Notes};

use crate::names::own;
use crate::needs::{PlainNeed, note, note_name, place_of};
use crate::operands::placed;
use flow::cell::{Cell, CellForm};
use indexmap::IndexSet;
use std::alloc::{AllocError, Allocator, Global};
use task_code::expr;

/// Adds the needs of the value of a cell: those of its expression if it is plain, or else its datum.
pub fn note_seen<A: Allocator>(
    needs: &mut IndexSet<PlainNeed>,
    inputs: usize,
    cell: &Cell<A>,
    plain: bool,
) -> Result<(), AllocError>
    ensures { OnOk result (FormRoom inputs (form_view cell.now.form)
        → Notes needs.old.keys needs.new.keys (wanted inputs (seen_as plain cell.now.node (form_view cell.now.form)))) }
{
    match &cell.form {
        CellForm::Compute(expr) => {
            if plain {
                note(needs, inputs, expr)
            } else {
                note_name(needs, own(cell.node))
            }
        }
        CellForm::Read { .. } => note_name(needs, own(cell.node)),
    }
}

/// Returns the value of a cell as an expression over these needs.
pub fn placed_seen<A: Allocator>(
    alloc: Global,
    needs: &IndexSet<PlainNeed>,
    inputs: usize,
    cell: &Cell<A>,
    plain: bool,
) -> Result<expr::Expr, AllocError>
    ensures { IfOk result (λ e. IsReady needs.now.keys → FormRoom inputs (form_view cell.now.form)
        → code_view.expr_view e ≡ over inputs (map need_of needs.now.keys) (seen_as plain cell.now.node (form_view cell.now.form))) }
{
    match &cell.form {
        CellForm::Compute(expr) => {
            if plain {
                placed(alloc, needs, inputs, expr)
            } else {
                Ok(expr::Expr::Need(place_of(needs, own(cell.node))))
            }
        }
        CellForm::Read { .. } => Ok(expr::Expr::Need(place_of(needs, own(cell.node)))),
    }
}
