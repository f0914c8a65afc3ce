//! Rights put into the code of `boolean x = true; if (true) { assert(x, ""); }`, in which the branch leads to the use of `x`.
ghost use Rattle.std.specs.Prelude.{◌≡◌, ◌<◌, ◌^◌, ◌∷◌, [], IfOk, List, length, map, pos};
ghost use Rattle.task_code.specs.Code.{Through, ways};
ghost use Rattle.task_code.specs.View.{act_view, entry_view, need_view};
ghost use Rattle.task_code.specs.declared.code.Body.{Body as Laid};
ghost use Rattle.ref_counting.specs.Rights.{HasMarks};
ghost use Rattle.emit_rights.specs.Granted.{laid_code};

use crate::asserts::{holds, is_equal};
use crate::lists::{put, two};
use emit_rights::granted::granted;
use std::alloc::{AllocError, Global};
use task_code::code::{Body, Opener};
use task_code::draft::Draft;
use task_code::entry::{Act, Entry, Name, Need, Owned, Variable};
use task_code::expr::Expr;
use values::value::Scalar;

const X: Variable = Variable {
    node: 1,
    array: false,
};

/// `x`, named from `up` blocks further in.
fn x(up: usize) -> Name {
    Name {
        up,
        owned: Owned::Local(X),
    }
}

/// An entry without rights.
fn bare(alloc: Global, offset: usize, needs: Vec<Need>, act: Act) -> Entry
    ensures { entry_view result ≡ record {
      node = 0;
      at = offset;
      offset = offset;
      priority = pos 0;
      needs = map need_view needs.items;
      act = act_view act;
      reads = [];
      writes = [];
    } }
{
    Entry {
        node: 0,
        at: offset,
        offset,
        priority: 0,
        needs,
        act,
        reads: Vec::new(alloc),
        writes: Vec::new(alloc),
    }
}

fn truth() -> Expr {
    Expr::Constant(Scalar::Truth(true))
}

/// `x = true;`
fn set(alloc: Global) -> Entry
    ensures { ways (entry_view result).act ≡ [] }
{
    bare(alloc, 4, Vec::new(alloc), Act::Set(x(0), truth()))
}

/// `if (true)`
fn branch(alloc: Global) -> Entry
    ensures { ways (entry_view result).act ≡ (Through, 1) ∷ [] }
{
    bare(alloc, 10, Vec::new(alloc), Act::If(truth(), 1, None))
}

/// `assert(x, "");`, in that.
fn assert(alloc: Global) -> Result<Entry, AllocError>
    ensures { IfOk result (λ e. ways (entry_view e).act ≡ []) }
{
    let needs = Vec::from_array(alloc, [Need::Stored(x(1))])?;
    Ok(bare(alloc, 20, needs, Act::Assert(Expr::Need(0))))
}

/// A body of these entries.
fn body(opener: Opener, makes: Vec<Variable>, entries: Vec<u32>) -> Body {
    Body {
        opener,
        makes,
        entries,
    }
}

/// The entries, in their order.
fn entries(alloc: Global) -> Result<Vec<Entry>, AllocError>
    ensures marks { IfOk result (λ es. (bs : List Laid) → HasMarks (laid_code bs es.items)) }
    ensures few { IfOk result (λ es. length es.items < 2 ^ 32) }
{
    let mut all = Vec::new(alloc);
    put(&mut all, set(alloc))?;
    put(&mut all, branch(alloc))?;
    let last = assert(alloc)?;
    put(&mut all, last)?;
    Ok(all)
}

/// The bodies, in their order.
fn bodies(alloc: Global) -> Result<Vec<Body>, AllocError>
    ensures few { IfOk result (λ bs. length bs.items < 2 ^ 32) }
{
    let makes = Vec::from_array(alloc, [X])?;
    let entries = Vec::from_array(alloc, [0, 1])?;
    let inner_entries = Vec::from_array(alloc, [2])?;
    let main = body(Opener::ByMain, makes, entries);
    let inner = body(Opener::ByStep(1), Vec::new(alloc), inner_entries);
    two(alloc, main, inner)
}

/// The code with its rights.
fn code(alloc: Global) -> Result<Draft, AllocError> {
    let entries = entries(alloc)?;
    let bodies = bodies(alloc)?;
    granted(alloc, bodies, entries)
}

/// Returns true if an entry may read and write these.
fn may(entry: Option<&Entry>, reads: &[Name], writes: &[Name]) -> bool {
    match entry {
        Some(found) => found.reads.as_slice() == reads && found.writes.as_slice() == writes,
        None => false,
    }
}

#[test]
fn a_right_goes_to_what_leads_to_its_use(rt: HostRuntime) {
    let code = code(rt.alloc()).expect(&rt, "memory");
    is_equal(&rt, code.body_count(), 2);
    holds(&rt, may(code.entry(0), &[], &[x(0)]));
    holds(&rt, may(code.entry(1), &[x(0)], &[]));
    holds(&rt, may(code.entry(2), &[x(1)], &[]));
}
