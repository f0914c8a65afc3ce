//! Traffic: for each variable, which statements write and read it, and how the drawing shows it.

use crate::analysis::scene::{Scene, VariableUse};
use std::alloc::{AllocError, Allocator, Global};

/// Number of readers from which on a variable that is given a literal is listed in its box instead of drawn by arrows.
const MANY_READERS: usize = 3;

/// How a variable is shown.
#[derive(Clone, Copy, PartialEq, Eq, Debug, Drop)]
pub enum Shown {
    /// It is not: no statement writes it.
    Nowhere,
    /// By an arrow from each writer to each reader.
    Arrows,
    /// By a box of its own, with an arrow from each writer and an arrow to each reader.
    OwnBox,
    /// By the lines of its readers, in the box of its only writer.
    Lines,
}

/// The writers and readers of each variable, by their numbers in order, and how each variable is shown.
#[derive(Drop)]
pub struct Traffic {
    writers: Vec<Vec<usize>>,
    readers: Vec<Vec<usize>>,
    shown: Vec<Shown>,
}

impl Traffic {
    /// Finds the traffic of a scene.
    ///
    /// # Errors
    ///
    /// Returns `AllocError` if an allocation fails.
    pub fn of<'a, A: Allocator>(
        alloc: Global,
        scene: &Scene<'a, A>,
    ) -> Result<Traffic, AllocError> {
        let writers = by_variable(alloc, scene, &scene.writes)?;
        let readers = by_variable(alloc, scene, &scene.reads)?;
        let mut shown = Vec::new(alloc);
        for variable in 0..scene.variables.len() {
            let how = shown_by(
                scene,
                variable,
                list_at(&writers, variable),
                list_at(&readers, variable),
            );
            shown.push(how)?;
        }
        Ok(Traffic {
            writers,
            readers,
            shown,
        })
    }

    /// Returns the writers of a variable.
    pub fn writers(&self, variable: usize) -> &[usize] {
        list_at(&self.writers, variable)
    }

    /// Returns the readers of a variable.
    pub fn readers(&self, variable: usize) -> &[usize] {
        list_at(&self.readers, variable)
    }

    /// Returns how a variable is shown.
    pub fn shown(&self, variable: usize) -> Shown {
        match self.shown.get(variable) {
            Some(shown) => *shown,
            None => Shown::Nowhere,
        }
    }
}

/// Returns the list at an index, or an empty list if there is none.
pub fn list_at(lists: &Vec<Vec<usize>>, at: usize) -> &[usize] {
    match lists.get(at) {
        Some(list) => list.as_slice(),
        None => &[],
    }
}

/// Returns as many empty lists as are wanted.
///
/// # Errors
///
/// Returns `AllocError` if an allocation fails.
pub fn empty_lists(alloc: Global, count: usize) -> Result<Vec<Vec<usize>>, AllocError> {
    let mut lists = Vec::new(alloc);
    for _ in 0..count {
        lists.push(Vec::new(alloc))?;
    }
    Ok(lists)
}

/// Returns the statements that use each variable, each once. The uses of a statement follow one another.
fn by_variable<'a, A: Allocator>(
    alloc: Global,
    scene: &Scene<'a, A>,
    uses: &Vec<VariableUse>,
) -> Result<Vec<Vec<usize>>, AllocError> {
    let mut lists = empty_lists(alloc, scene.variables.len())?;
    for one in uses {
        if let Some(variable) = scene.variable(one.node) {
            if let Some(list) = lists.get_mut(variable) {
                add_once(list, one.statement)?;
            }
        }
    }
    Ok(lists)
}

/// Appends a number to a list, unless it is the last already.
fn add_once(list: &mut Vec<usize>, number: usize) -> Result<(), AllocError> {
    if list.last().copied() != Some(number) {
        list.push(number)?;
    }
    Ok(())
}

/// Returns how a variable with these writers and readers is shown.
fn shown_by<'a, A: Allocator>(
    scene: &Scene<'a, A>,
    variable: usize,
    writers: &[usize],
    readers: &[usize],
) -> Shown {
    let Some(info) = scene.variables.get(variable) else {
        return Shown::Nowhere;
    };
    match writers {
        [] => Shown::Nowhere,
        _ if info.is_output => Shown::OwnBox,
        [writer] => {
            if readers.len() >= MANY_READERS && is_setting(scene, *writer) {
                Shown::Lines
            } else {
                Shown::Arrows
            }
        }
        _ if readers.len() > 1 => Shown::OwnBox,
        _ => Shown::Arrows,
    }
}

/// Returns true if a statement assigns a literal.
fn is_setting<'a, A: Allocator>(scene: &Scene<'a, A>, statement: usize) -> bool {
    match scene.boxes.get(statement) {
        Some(found) => found.is_setting,
        None => false,
    }
}
