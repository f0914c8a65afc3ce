//! Compact forms of the key of an enclosing instance and of the last step of a path.
ghost use Rattle.std.specs.Prelude.{◌≡◌, None, Some, is_some, IfOk};
ghost use Rattle.values.specs.Keys.{key_seen};
ghost use Rattle.values.specs.declared.key.Key.TheVariants.{Number as number_key};

use paths::Step;
use std::alloc::AllocError;
use std::marker::Model;
use values::key::{Key, KeyRef};
use values::text::Text;

// Marks a missing key; no instance has this key.
const NO_KEY: u32 = 4_294_967_295;

/// The key of an enclosing instance, if there is one, in half a word.
#[derive(Drop)]
pub struct ParentKey {
    key: u32,
}

impl Model for ParentKey {
    ghost use Rattle.std.specs.Prelude.{ℕ, Option};
    ghost use Rattle.board_instances.specs.Outer.{key_in};

    ghost Value = { Option ℕ };

    ghost view = { λ a. key_in a.key };
}

impl ParentKey {
    /// Creates the value of an outermost instance, which has no enclosing one.
    pub fn none() -> ParentKey
        ensures { result ≡ None }
    {
        ParentKey { key: NO_KEY }
    }

    /// Packs the key of an enclosing instance. Keys are stored in 32 bits. A larger one is more than memory can hold,
    /// and is reported as an allocation failure.
    ///
    /// # Errors
    ///
    /// Returns `AllocError` if the key does not fit in 32 bits or is the reserved value.
    pub fn of(key: usize) -> Result<ParentKey, AllocError>
        ensures { IfOk result (λ outer. outer ≡ Some key) }
    {
        if key >= NO_KEY as usize {
            return Err(AllocError);
        }
        Ok(ParentKey { key: key as u32 })
    }

    /// Returns the key, or `None` for an outermost instance.
    pub fn key(&self) -> Option<usize>
        ensures { result ≡ self.now }
    {
        if self.key == NO_KEY {
            None
        } else {
            Some(self.key as usize)
        }
    }
}

/// The last step of a path, if the instance adds one, in two words.
#[derive(Drop)]
enum PackedStep {
    Nothing,
    ToNumber(u32, i64),
    ToText(u32, Text),
}

/// The last step of a path, if the instance adds one.
#[derive(Drop)]
pub struct LastStep {
    kept: PackedStep,
}

impl Model for LastStep {
    ghost use Rattle.std.specs.Prelude.{Option};
    ghost use Rattle.board_instances.specs.Outer.{step_in};
    ghost use Rattle.paths.specs.declared.steps.Step.{Step};

    ghost Value = { Option Step };

    ghost view = { λ a. step_in a.kept };
}

impl LastStep {
    /// Creates the value for an instance that adds no step.
    pub fn none() -> LastStep
        ensures { result ≡ None }
    {
        LastStep {
            kept: PackedStep::Nothing,
        }
    }

    /// Creates a step to a number key.
    #[inline(always)]
    pub fn to_number(offset: u32, number: i64) -> LastStep
        ensures { result ≡ Some (record { offset = offset; key = number_key number }) }
    {
        LastStep {
            kept: PackedStep::ToNumber(offset, number),
        }
    }

    /// Creates a step to this key. A text key is shared.
    ///
    /// # Errors
    ///
    /// Returns `AllocError` if the reference count of a text overflows.
    #[inline(always)]
    pub fn to(offset: u32, key: KeyRef<'_>) -> Result<LastStep, AllocError>
        ensures { IfOk result (λ way. way ≡ Some (record { offset = offset; key = key_seen key.entry })) }
    {
        match key {
            KeyRef::Number(number) => Ok(LastStep::to_number(offset, number)),
            KeyRef::Text(text) => Ok(LastStep {
                kept: PackedStep::ToText(offset, text.share()?),
            }),
        }
    }

    /// Returns true if there is a step.
    #[inline(always)]
    pub fn is_step(&self) -> bool
        ensures { result ≡ is_some self.now }
    {
        !matches!(self.kept, PackedStep::Nothing)
    }

    /// Returns the step, or `None` if there is none. A text key is shared.
    ///
    /// # Errors
    ///
    /// Returns `AllocError` if the reference count of a text overflows.
    pub fn step(&self) -> Result<Option<Step>, AllocError>
        ensures { IfOk result (λ step. step ≡ self.now) }
    {
        match &self.kept {
            PackedStep::Nothing => Ok(None),
            PackedStep::ToNumber(offset, number) => Ok(Some(Step {
                offset: *offset as usize,
                key: Key::Number(*number),
            })),
            PackedStep::ToText(offset, text) => Ok(Some(Step {
                offset: *offset as usize,
                key: Key::Text(text.share()?),
            })),
        }
    }
}
