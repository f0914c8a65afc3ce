//! Sorting and deduplication of statements and of faults.
ghost use Rattle.std.specs.Prelude.{◌≡◌, [], IfOk};
ghost use Rattle.std.specs.Ordering.{is_lt};
ghost use Rattle.meaning_outcomes.specs.Lists.{each_once, is_last, Lists};
ghost use Rattle.paths.specs.Order.{fault_below, same_fault, same_statement, statement_below};

use paths::{Fault, StatementInstance};
use std::alloc::{AllocError, Global};
use std::cmp::Ordering;

/// Sorts statements and removes duplicates.
///
/// # Errors
///
/// Returns `AllocError` if an allocation fails.
pub fn in_order(
    alloc: Global,
    statements: Vec<StatementInstance>,
) -> Result<Vec<StatementInstance>, AllocError>
    ensures { IfOk result (λ found. Lists statement_below same_statement statements.items found.items) }
{
    let mut statements = statements;
    statements.sort_by(
        |a, b|
            ensures { is_lt result ≡ statement_below a.now b.now }
        { by_tests(a.is_below(b), b.is_below(a)) },
    )?;
    each_once(alloc, statements)
}

/// Sorts faults and removes duplicates.
///
/// # Errors
///
/// Returns `AllocError` if an allocation fails.
pub fn faults_in_order(alloc: Global, faults: Vec<Fault>) -> Result<Vec<Fault>, AllocError>
    ensures { IfOk result (λ found. Lists fault_below same_fault faults.items found.items) }
{
    let mut faults = faults;
    faults.sort_by(
        |a, b|
            ensures { is_lt result ≡ fault_below a.now b.now }
        { by_tests(a.is_below(b), b.is_below(a)) },
    )?;
    each_fault_once(alloc, faults)
}

/// Converts two tests, for below and above, into an ordering.
fn by_tests(below: bool, above: bool) -> Ordering
    ensures { is_lt result ≡ below }
{
    if below {
        Ordering::Less
    } else if above {
        Ordering::Greater
    } else {
        Ordering::Equal
    }
}

/// Removes adjacent duplicates from a list of statements.
fn each_once(
    alloc: Global,
    statements: Vec<StatementInstance>,
) -> Result<Vec<StatementInstance>, AllocError>
    ensures { IfOk result (λ found. found.items ≡ each_once same_statement [] statements.items) }
{
    let mut found = Vec::new(alloc);
    for statement in statements {
        if !is_last(found.as_slice(), &statement) {
            found.push(statement)?;
        }
    }
    Ok(found)
}

/// Returns true if the statement is the last of these.
fn is_last(found: &[StatementInstance], statement: &StatementInstance) -> bool
    ensures { result ≡ is_last same_statement found.now statement.now }
{
    match found.last() {
        Some(last) => statement.is_same(last),
        None => false,
    }
}

/// Removes adjacent duplicates from a list of faults.
fn each_fault_once(alloc: Global, faults: Vec<Fault>) -> Result<Vec<Fault>, AllocError>
    ensures { IfOk result (λ found. found.items ≡ each_once same_fault [] faults.items) }
{
    let mut found = Vec::new(alloc);
    for fault in faults {
        if !is_last_fault(found.as_slice(), &fault) {
            found.push(fault)?;
        }
    }
    Ok(found)
}

/// Returns true if the fault is the last of these.
fn is_last_fault(found: &[Fault], fault: &Fault) -> bool
    ensures { result ≡ is_last same_fault found.now fault.now }
{
    match found.last() {
        Some(last) => fault.is_same(last),
        None => false,
    }
}
