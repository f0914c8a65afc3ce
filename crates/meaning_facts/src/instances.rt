//! Block instances: their tree, their paths, and the resolution of names to places.
ghost use Rattle.std.specs.Prelude.{◌≡◌, ◌&&◌, ◌<◌, ◌∷◌, ℕ, List, None, Some, if◌then◌else◌, cond, length, map, nat_le, option_copied, IfOk, OnOk};
ghost use Rattle.std.specs.HashMap.{get};
ghost use Rattle.std.specs.Str.{bytes_eq};
ghost use Rattle.values.specs.declared.key.Key.{Key as StepKey};
ghost use Rattle.flow.specs.View.{name_view, names_view, owned_view};
ghost use Rattle.language.specs.Core.{Core};
ghost use Rattle.language.specs.Places.{Path, place, max_path_steps};
ghost use Rattle.meaning_facts.specs.Paths.{child_at, named_in, path_of, same_step, step_view, IsNone, IsOpen, IsTree};
ghost use Rattle.meaning_facts.specs.Stands.{Stands, IsPlace};
ghost use Rattle.meaning_facts.specs.Store.{same_pair, spot, spots, outward, parent_of, owner_spot, given_at, variable_in, variables_of, inputs_of, outputs_of};

use crate::facts::Place;
use flow::name::{Name, NameBinding};
use paths::Step;
use std::alloc::{AllocError, Global};
use std::collections::HashMap;
use values::key::Key;
use values::limits::MAX_PATH_STEPS;
use values::text::Text;
use values::value::Scalar;

/// A loop variable, by its node, and its value in one turn.
#[derive(Drop)]
pub struct LoopVariable {
    pub node: u32,
    pub value: Scalar,
}

/// The bindings of an instance: the places of the inputs and outputs of a call, and the values of loop variables.
#[derive(Drop)]
pub struct InstanceBindings {
    pub inputs: Vec<Place>,
    pub outputs: Vec<Place>,
    pub variables: Vec<LoopVariable>,
}

/// A block instance: the number of its parent, its path with the innermost step first, and its bindings.
#[derive(Drop)]
pub struct Instance {
    pub parent: usize,
    pub path: Vec<Step>,
    pub given: InstanceBindings,
}

/// The tree of block instances of a script, root first. Each instance comes after its parent.
#[derive(Drop)]
pub struct Instances {
    pub all: Vec<Instance>,
    // Children by parent and step: those with a number as key, and those with a text.
    opened: HashMap<(usize, usize, i64), usize>,
    named: HashMap<(usize, usize), HashMap<Text, usize>>,
}

impl InstanceBindings {
    /// Creates bindings that bind nothing.
    pub fn none(alloc: Global) -> InstanceBindings
        ensures { IsNone result }
    {
        InstanceBindings {
            inputs: Vec::new(alloc),
            outputs: Vec::new(alloc),
            variables: Vec::new(alloc),
        }
    }
}

impl Instances {
    /// Creates the tree with only the instance of the script.
    #[tactic(auto, using(crate::proofs::Tree::one_is_tree))]
    pub fn new(alloc: Global) -> Result<Instances, AllocError>
        ensures tree { IfOk result IsTree }
        ensures one { IfOk result (λ t. length t.all.items ≡ 1) }
    {
        let mut all = Vec::new(alloc);
        all.push(Instance {
            parent: 0,
            path: Vec::new(alloc),
            given: InstanceBindings::none(alloc),
        })?;
        Ok(Instances {
            all,
            opened: HashMap::new(alloc),
            named: HashMap::new(alloc),
        })
    }

    /// Returns true if the path of an instance has the maximum length.
    pub fn is_deep(&self, instance: usize) -> bool
        ensures { result ≡ nat_le max_path_steps (length (path_of self.now.all.items instance)) }
    {
        self.path(instance).len() >= MAX_PATH_STEPS
    }

    /// Returns the path of an instance, innermost step first.
    pub fn path(&self, instance: usize) -> &[Step]
        ensures { map step_view result.now ≡ path_of self.now.all.items instance }
    {
        match self.all.get(instance) {
            Some(found) => found.path.as_slice(),
            None => &[],
        }
    }

    /// Returns the child of an instance at a step, if it is open.
    pub fn child(&self, parent: usize, at: usize, key: &Key) -> Option<usize>
        ensures { result ≡ child_at self.now parent at key.now }
    {
        match key {
            Key::Number(number) => self.opened.get(&(parent, at, *number)).copied(),
            Key::Text(text) => match self.named.get(&(parent, at)) {
                Some(children) => children.get(text).copied(),
                None => None,
            },
        }
    }

    /// Opens a child instance, and returns its number.
    pub fn open(
        &mut self,
        alloc: Global,
        parent: usize,
        step: Step,
        given: InstanceBindings,
    ) -> Result<usize, AllocError>
        ensures number { IfOk result (λ number. number ≡ length self.old.all.items) }
        ensures opened { OnOk result (IsOpen self.old parent step given self.new) }
        ensures tree { OnOk result (IsTree self.old → parent < length self.old.all.items → child_at self.old parent step.offset step.key ≡ None
            → length (path_of self.old.all.items parent) < max_path_steps → IsTree self.new) }
    {
        let number = self.all.len();
        self.note(alloc, parent, step.offset, &step.key, number)?;
        let path = path_behind(alloc, self.path(parent), step)?;
        self.all.push(Instance {
            parent,
            path,
            given,
        })?;
        Ok(number)
    }

    /// Records a child instance at its step.
    fn note(
        &mut self,
        alloc: Global,
        parent: usize,
        at: usize,
        key: &Key,
        number: usize,
    ) -> Result<(), AllocError>
        ensures all { OnOk result (self.new.all ≡ self.old.all) }
        ensures found { OnOk result ((i a : ℕ) (k : StepKey) → child_at self.new i a k
            ≡ (if same_step (parent, at, key.now) (i, a, k) then Some number else child_at self.old i a k)) }
    {
        match key {
            Key::Number(turn) => {
                self.opened.insert((parent, at, *turn), number)?;
                Ok(())
            }
            Key::Text(text) => note_named(
                &mut self.named,
                alloc,
                (parent, at),
                text.share()?,
                number,
            ),
        }
    }

    /// Returns the value of a loop variable at a place, if the instance is a turn of its loop.
    pub fn variable(&self, place: Place) -> Option<&Scalar>
        ensures { option_copied result ≡ variable_in (variables_of self.now.all.items place.instance) place.node }
    {
        match self.all.get(place.instance) {
            Some(found) => scalar_of(found.given.variables.as_slice(), place.node),
            None => None,
        }
    }

    /// Returns the place that a name denotes in an instance. The name's level selects an ancestor of the instance,
    /// where the owner's node is the place. An input or an output of a function resolves to the place that the caller
    /// bound.
    pub fn place(&self, instance: usize, name: Name) -> Place
        ensures spot { result ≡ spot self.now.all.items instance (name_view name) }
        ensures lies { (s : Core) (path : Path) → Stands s self.now.all.items instance path
            → IsPlace s self.now.all.items result (place s path (name_view name)) }
    {
        self.owner_place(self.ancestor(instance, name.up), name.what)
    }

    /// Returns the ancestor `up` levels above an instance.
    #[tactic(auto, using(crate::proofs::Stored::outward_step))]
    fn ancestor(&self, instance: usize, up: usize) -> usize
        ensures { result ≡ outward self.now.all.items up instance }
    {
        if up == 0 {
            return instance;
        }
        self.ancestor(self.parent(instance), up - 1)
    }

    /// Returns the parent of an instance. The instance of the script is its own parent.
    fn parent(&self, instance: usize) -> usize
        ensures { result ≡ parent_of self.now.all.items instance }
    {
        match self.all.get(instance) {
            Some(found) => found.parent,
            None => 0,
        }
    }

    /// Returns the place of a variable, an input or an output that an instance owns.
    fn owner_place(&self, instance: usize, what: NameBinding) -> Place
        ensures { result ≡ owner_spot self.now.all.items instance (owned_view what) }
    {
        match what {
            NameBinding::Local(node) => Place { instance, node },
            NameBinding::Input(i) => self.given_place(self.inputs(instance), i, instance),
            NameBinding::Output(i) => self.given_place(self.outputs(instance), i, instance),
        }
    }

    /// Returns one of the bound places of an instance, or node 0 of its parent if there is none.
    fn given_place(&self, places: &[Place], i: usize, instance: usize) -> Place
        ensures { result ≡ given_at places.now i (parent_of self.now.all.items instance) }
    {
        match places.get(i) {
            Some(place) => *place,
            None => Place {
                instance: self.parent(instance),
                node: 0,
            },
        }
    }

    fn inputs(&self, instance: usize) -> &[Place]
        ensures { result.now ≡ inputs_of self.now.all.items instance }
    {
        match self.all.get(instance) {
            Some(found) => found.given.inputs.as_slice(),
            None => &[],
        }
    }

    fn outputs(&self, instance: usize) -> &[Place]
        ensures { result.now ≡ outputs_of self.now.all.items instance }
    {
        match self.all.get(instance) {
            Some(found) => found.given.outputs.as_slice(),
            None => &[],
        }
    }

    /// Returns the places that names denote in an instance.
    pub fn places(
        &self,
        alloc: Global,
        instance: usize,
        names: &[Name],
    ) -> Result<Vec<Place>, AllocError>
        ensures { IfOk result (λ places. places.items ≡ spots self.now.all.items instance (names_view names.now)) }
    {
        let mut places = Vec::new(alloc);
        for name in names {
            places.push(self.place(instance, *name))?;
        }
        Ok(places)
    }
}

/// Records the child instance at a text key.
fn note_named(
    named: &mut HashMap<(usize, usize), HashMap<Text, usize>>,
    alloc: Global,
    step: (usize, usize),
    text: Text,
    number: usize,
) -> Result<(), AllocError>
    ensures { OnOk result ((other : ℕ × ℕ) (bytes : List ℕ) → named_in (get same_pair named.new other) bytes
        ≡ (if same_pair step other && bytes_eq text bytes then Some number else named_in (get same_pair named.old other) bytes)) }
{
    let mut children = take_named(named, alloc, step);
    children.insert(text, number)?;
    named.insert(step, children)?;
    Ok(())
}

/// Removes and returns the children at an offset whose keys are texts.
fn take_named(
    named: &mut HashMap<(usize, usize), HashMap<Text, usize>>,
    alloc: Global,
    step: (usize, usize),
) -> HashMap<Text, usize>
    ensures left { (other : ℕ × ℕ) → get same_pair named.new other ≡ cond (same_pair step other) None (get same_pair named.old other) }
    ensures taken { (bytes : List ℕ) → get bytes_eq result bytes ≡ named_in (get same_pair named.old step) bytes }
{
    match named.remove(&step) {
        Some(children) => children,
        None => HashMap::new(alloc),
    }
}

/// Returns the value of the variable with this node, if it is in the list.
fn scalar_of(variables: &[LoopVariable], node: u32) -> Option<&Scalar>
    ensures { option_copied result ≡ variable_in variables.now node }
{
    for variable in variables {
        if variable.node == node {
            return Some(&variable.value);
        }
    }
    None
}

/// Returns a path extended by one innermost step.
fn path_behind(alloc: Global, path: &[Step], step: Step) -> Result<Vec<Step>, AllocError>
    ensures { IfOk result (λ longer. map step_view longer.items ≡ step_view step ∷ map step_view path.now) }
{
    let mut longer = Vec::new(alloc);
    longer.push(step)?;
    for other in path {
        longer.push(other.share()?)?;
    }
    Ok(longer)
}
