//! Groups of blocked statements with the same offset and the same missing inputs, such as the turns of a loop.

use explain_inputs::blocked_statement::BlockedStatement;
use std::alloc::{AllocError, Allocator, Global};
use std::collections::HashMap;

/// The wait groups of a list: the first statement of each statement's group, and the size of each group.
pub struct WaitGroups {
    firsts: Vec<usize>,
    counts: HashMap<usize, usize>,
}

// Implemented by hand, so that an owner drops the value with one call.
impl Drop for WaitGroups {
    fn drop(self) {
        let WaitGroups {
            firsts: _,
            counts: _,
        } = self;
    }
}

impl WaitGroups {
    /// Groups the statements of a list. A statement that is `done` is a group of its own.
    pub fn of<'t, 'a, A: Allocator>(
        alloc: Global,
        listed: &[BlockedStatement<'t, 'a, A>],
        done: &[bool],
    ) -> Result<WaitGroups, AllocError> {
        let mut wait_groups = WaitGroups {
            firsts: Vec::with_capacity(alloc, listed.len())?,
            counts: HashMap::new(alloc),
        };
        wait_groups.add_all(alloc, listed, done)?;
        Ok(wait_groups)
    }

    fn add_all<'t, 'a, A: Allocator>(
        &mut self,
        alloc: Global,
        listed: &[BlockedStatement<'t, 'a, A>],
        done: &[bool],
    ) -> Result<(), AllocError> {
        let mut by_offset: HashMap<usize, Vec<usize>> = HashMap::new(alloc);
        for number in 0..listed.len() {
            let first = if done.get(number) == Some(&true) {
                number
            } else {
                first_alike(alloc, &mut by_offset, listed, number)?
            };
            self.add(first)?;
        }
        Ok(())
    }

    /// Returns the first statement of the group of a statement.
    pub fn first(&self, number: usize) -> usize {
        match self.firsts.get(number) {
            Some(first) => *first,
            None => number,
        }
    }

    /// Returns the number of statements in the group of a statement, including that statement.
    pub fn count(&self, number: usize) -> usize {
        match self.counts.get(&self.first(number)) {
            Some(count) => *count,
            None => 0,
        }
    }

    fn add(&mut self, first: usize) -> Result<(), AllocError> {
        let count = match self.counts.get(&first) {
            Some(count) => count.saturating_add(1),
            None => 1,
        };
        self.counts.insert(first, count)?;
        self.firsts.push(first)?;
        Ok(())
    }
}

/// Returns the first statement before this one in the same group. If there is none, records and returns this one.
fn first_alike<'t, 'a, A: Allocator>(
    alloc: Global,
    by_offset: &mut HashMap<usize, Vec<usize>>,
    listed: &[BlockedStatement<'t, 'a, A>],
    number: usize,
) -> Result<usize, AllocError> {
    let Some(waiting) = listed.get(number) else {
        return Ok(number);
    };
    let at = waiting.site.at();
    if !by_offset.contains_key(&at) {
        by_offset.insert(at, Vec::new(alloc))?;
    }
    match by_offset.get_mut(&at) {
        Some(firsts) => first_or_own(firsts, listed, number),
        None => Ok(number),
    }
}

fn first_or_own<'t, 'a, A: Allocator>(
    firsts: &mut Vec<usize>,
    listed: &[BlockedStatement<'t, 'a, A>],
    number: usize,
) -> Result<usize, AllocError> {
    for i in 0..firsts.len() {
        if have_same_missing(listed, firsts[i], number) {
            return Ok(firsts[i]);
        }
    }
    firsts.push(number)?;
    Ok(number)
}

/// Returns true if two statements have the same missing inputs, compared by name.
fn have_same_missing<'t, 'a, A: Allocator>(
    listed: &[BlockedStatement<'t, 'a, A>],
    one: usize,
    other: usize,
) -> bool {
    match (listed.get(one), listed.get(other)) {
        (Some(one), Some(other)) => have_same(one, other),
        _ => false,
    }
}

fn have_same<'t, 'a, A: Allocator>(
    one: &BlockedStatement<'t, 'a, A>,
    other: &BlockedStatement<'t, 'a, A>,
) -> bool {
    one.missing.as_slice() == other.missing.as_slice()
}
