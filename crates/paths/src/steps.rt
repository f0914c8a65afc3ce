//! Steps of block paths, and the lexicographic order of paths.
ghost use Rattle.std.specs.Prelude.{◌≡◌, IfOk};
ghost use Rattle.paths.specs.Order.{path_below, same_path, same_step, step_below};

use std::alloc::AllocError;
use values::key::Key;

/// A step into a block instance: the offset of the construct that opens it, and a key. The key is the branch, the key
/// of the turn, or 0 for a call.
#[derive(Debug, Drop)]
pub struct Step {
    pub offset: usize,
    pub key: Key,
}

impl Step {
    /// Returns a copy of the step. A text key is shared.
    ///
    /// # Errors
    ///
    /// Returns `AllocError` if an allocation fails.
    pub fn share(&self) -> Result<Step, AllocError>
        ensures { IfOk result (λ step. step ≡ self.now) }
    {
        Ok(Step {
            offset: self.offset,
            key: self.key.share()?,
        })
    }

    /// Returns true if this step sorts before `other`: by offset, then by key.
    pub fn is_below(&self, other: &Step) -> bool
        ensures { result ≡ step_below self.now other.now }
    {
        self.offset < other.offset || (self.offset == other.offset && self.key.is_below(&other.key))
    }

    /// Returns true if both steps have the same offset and the same key.
    pub fn is_same(&self, other: &Step) -> bool
        ensures { result ≡ same_step self.now other.now }
    {
        self.offset == other.offset && self.key.is_same(&other.key)
    }
}

/// Returns true if the first path sorts before the second: step by step, where a proper prefix comes first.
pub(crate) fn is_path_below(one: &[Step], other: &[Step]) -> bool
    ensures { result ≡ path_below one.now other.now }
{
    let mut rest = other;
    for step in one {
        match rest {
            [] => return false,
            [first, left @ ..] => {
                if step.is_below(first) {
                    return true;
                }
                if !step.is_same(first) {
                    return false;
                }
                rest = left;
            }
        }
    }
    !rest.is_empty()
}

/// Returns true if both paths have the same steps.
pub(crate) fn is_same_path(one: &[Step], other: &[Step]) -> bool
    ensures { result ≡ same_path one.now other.now }
{
    let mut rest = other;
    for step in one {
        match rest {
            [first, left @ ..] if step.is_same(first) => rest = left,
            _ => return false,
        }
    }
    rest.is_empty()
}
