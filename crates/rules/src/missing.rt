//! The missing inputs of an item, in a compact representation.
ghost use Rattle.std.specs.Prelude.{◌≡◌, ◌≢◌, ◌<◌, List, [], ◌∷◌, ◌==◌, not, length, filter};
ghost use Rattle.rules.specs.declared.input.Input.{Input};
ghost use Rattle.rules.specs.declared.input.Input.{Input as AnInput};
ghost use Rattle.rules.specs.declared.missing.Missing.TheVariants.{More};
ghost use Rattle.rules.specs.Inputs.{covers};
ghost use Rattle.rules.specs.Missing.{inputs_in, inputs_of};

use crate::input::Input;
use crate::many_inputs::ManyInputs;
use smallvec::SmallVec;
use std::alloc::Global;

/// The missing inputs of an item, in order. One or two are stored inline, without a tag per input; more are stored in a
/// list. A datum is its number, and an element is the number of its array and the hash of its key.
#[derive(Drop)]
pub enum Missing {
    Nothing,
    OneWhole(u64),
    OneElement(u64, u64),
    TwoWholes(u64, u64),
    WholeAndElement(u64, u64, u64),
    ElementAndWhole(u64, u64, u64),
    TwoElements(u64, u64, u64, u64),
    More(ManyInputs),
}

/// The missing inputs, by their number.
#[derive(Drop)]
pub enum InputCount<'a> {
    Nothing,
    One(Input),
    Two(Input, Input),
    More(&'a ManyInputs),
}

/// Creates the representation of one input.
#[inline(always)]
fn one(input: &Input) -> Missing
    ensures { inputs_in result ≡ input.now ∷ [] }
{
    match input {
        Input::Whole(a) => Missing::OneWhole(*a),
        Input::Element(a, k) => Missing::OneElement(*a, *k),
    }
}

/// Creates the representation of two inputs.
#[inline(always)]
fn two(first: &Input, second: &Input) -> Missing
    ensures { inputs_in result ≡ first.now ∷ second.now ∷ [] }
{
    match (first, second) {
        (Input::Whole(a), Input::Whole(b)) => Missing::TwoWholes(*a, *b),
        (Input::Whole(a), Input::Element(b, l)) => { Missing::WholeAndElement(*a, *b, *l) }
        (Input::Element(a, k), Input::Whole(b)) => { Missing::ElementAndWhole(*a, *k, *b) }
        (Input::Element(a, k), Input::Element(b, l)) => { Missing::TwoElements(*a, *k, *b, *l) }
    }
}

/// Creates the representation of more than two inputs, which are in an allocation.
fn more(alloc: Global, inputs: SmallVec<Input, 2>) -> Missing
    requires { 2 < length inputs.items }
    ensures { inputs_in result ≡ inputs.items }
{
    match inputs.into_vec() {
        Ok(list) => Missing::More(ManyInputs::of(alloc, list)),
        Err(_) => unreachable!(),
    }
}

/// Returns what is missing of one input once `input` is known.
#[inline(always)]
fn remaining_of_one(input: &Input, only: &Input) -> Missing
    ensures { inputs_in result ≡ filter (λ j. not (covers input.now j)) (only.now ∷ []) }
{
    if input.covers(only) {
        Missing::Nothing
    } else {
        one(only)
    }
}

/// Returns what is missing of two inputs once `input` is known.
#[inline(always)]
fn remaining_of_two(input: &Input, first: &Input, second: &Input) -> Missing
    ensures { inputs_in result ≡ filter (λ j. not (covers input.now j)) (first.now ∷ second.now ∷ []) }
{
    match (input.covers(first), input.covers(second)) {
        (true, true) => Missing::Nothing,
        (true, false) => one(second),
        (false, true) => one(first),
        (false, false) => two(first, second),
    }
}

impl Missing {
    pub fn of(alloc: Global, inputs: SmallVec<Input, 2>) -> Missing
        ensures { inputs_in result ≡ inputs.items }
    {
        if inputs.len() > 2 {
            return more(alloc, inputs);
        }
        match inputs.as_slice() {
            [] => Missing::Nothing,
            [only] => one(only),
            [first, second] => two(first, second),
            _ => unreachable!(),
        }
    }

    /// Returns true if no input is missing.
    pub fn is_nothing(&self) -> bool
        ensures { result ≡ (length (inputs_in self.now) == 0) }
    {
        match self {
            Missing::Nothing => true,
            Missing::More(many) => many.len() == 0,
            _ => false,
        }
    }

    /// Returns the number of missing inputs.
    pub fn len(&self) -> usize
        ensures { result ≡ length (inputs_in self.now) }
    {
        match self {
            Missing::Nothing => 0,
            Missing::OneWhole(_) | Missing::OneElement(_, _) => 1,
            Missing::More(many) => many.len(),
            _ => 2,
        }
    }

    /// Returns the missing inputs, by their number.
    #[inline(always)]
    pub fn listed(&self) -> InputCount<'_>
        ensures { inputs_of result ≡ inputs_in self.now }
    {
        match self {
            Missing::Nothing => InputCount::Nothing,
            Missing::OneWhole(a) => InputCount::One(Input::Whole(*a)),
            Missing::OneElement(a, k) => InputCount::One(Input::Element(*a, *k)),
            Missing::TwoWholes(a, b) => InputCount::Two(Input::Whole(*a), Input::Whole(*b)),
            Missing::WholeAndElement(a, b, l) => InputCount::Two(
                Input::Whole(*a),
                Input::Element(*b, *l),
            ),
            Missing::ElementAndWhole(a, k, b) => InputCount::Two(
                Input::Element(*a, *k),
                Input::Whole(*b),
            ),
            Missing::TwoElements(a, k, b, l) => InputCount::Two(
                Input::Element(*a, *k),
                Input::Element(*b, *l),
            ),
            Missing::More(many) => InputCount::More(many),
        }
    }

    /// Returns what is missing of at most two inputs once `input` is known.
    #[inline(always)]
    fn left(&self, input: &Input) -> Missing
        requires { (many : List AnInput) → self.now ≢ More many }
        ensures { inputs_in result ≡ filter (λ j. not (covers input.now j)) (inputs_in self.now) }
    {
        match self {
            Missing::Nothing => Missing::Nothing,
            Missing::OneWhole(a) => remaining_of_one(input, &Input::Whole(*a)),
            Missing::OneElement(a, k) => remaining_of_one(input, &Input::Element(*a, *k)),
            Missing::TwoWholes(a, b) => remaining_of_two(
                input,
                &Input::Whole(*a),
                &Input::Whole(*b),
            ),
            Missing::WholeAndElement(a, b, l) => {
                remaining_of_two(input, &Input::Whole(*a), &Input::Element(*b, *l))
            }
            Missing::ElementAndWhole(a, k, b) => {
                remaining_of_two(input, &Input::Element(*a, *k), &Input::Whole(*b))
            }
            Missing::TwoElements(a, k, b, l) => {
                remaining_of_two(input, &Input::Element(*a, *k), &Input::Element(*b, *l))
            }
            Missing::More(_) => unreachable!(),
        }
    }

    /// Removes the missing inputs that this input covers.
    pub fn learn(&mut self, input: &Input)
        ensures { inputs_in self.new ≡ filter (λ j. not (covers input.now j)) (inputs_in self.old) }
    {
        if let Missing::More(many) = self {
            many.learn(input);
            return;
        }
        *self = self.left(input);
    }
}
