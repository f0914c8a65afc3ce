//! Lexical addresses: static resolution of the names of each body.
ghost use Rattle.std.specs.Prelude.{◌≡◌, ◌<◌, ◌≤◌, ◌^◌, length, replicate, None, IfOk, MatchOption};
ghost use Rattle.task_code.specs.Code.{Code, body as body_at};
ghost use Rattle.task_code.specs.View.{body_view, name_view, opener_view, owned_view};
ghost use Rattle.board_program.specs.Places.{FindsPlaces};
ghost use Rattle.board_program.specs.Program.{IsLeads};
ghost use Rattle.board_program.specs.Spots.{at_home, go_out, home_of, homes_of, note, own_if, spot_in};
ghost use Rattle.board_program.specs.Tables.{AllFrom};

use crate::variable_index::{VariableIndex, places_among};
use std::alloc::{AllocError, Global};
use task_code::code::{Body, Code, Opener};
use task_code::entry::{Name, Owned};

/// A resolved name: the number of instances further out, and the slot there.
#[derive(Clone, Copy, PartialEq, Eq, Debug, Drop)]
pub struct LexicalAddress {
    pub levels: usize,
    pub slot: usize,
}

impl Default for LexicalAddress {
    fn default() -> LexicalAddress {
        LexicalAddress { levels: 0, slot: 0 }
    }
}

/// Records `number` as the body of each entry that `body` lists.
#[tactic(auto, using(crate::proofs::Homes::note_next, crate::proofs::Homes::note_past, crate::proofs::Homes::note_end))]
fn record_body(entry_bodies: &mut Vec<Option<u32>>, body: &Body, number: u32)
    ensures { entry_bodies.new.items ≡ note number (body_view body.now).entries entry_bodies.old.items }
{
    for at in 0..body.entries.len() {
        let entry = body.entries[at] as usize;
        if entry < entry_bodies.len() {
            entry_bodies[entry] = Some(number);
        }
    }
}

/// Creates a list of `count` entries without a body.
#[tactic(auto, using(crate::proofs::Homes::one_more))]
fn unassigned_bodies(alloc: Global, count: usize) -> Result<Vec<Option<u32>>, AllocError>
    ensures { IfOk result (λ entry_bodies. entry_bodies.items ≡ replicate count None) }
{
    let mut entry_bodies = Vec::with_capacity(alloc, count)?;
    for _ in 0..count {
        entry_bodies.push(None)?;
    }
    Ok(entry_bodies)
}

/// Returns the body of each entry, indexed by the number of the entry.
#[tactic(auto, using(crate::proofs::Homes::noted_next, crate::proofs::Homes::noted_end))]
fn entry_bodies(alloc: Global, code: &Code) -> Result<Vec<Option<u32>>, AllocError>
    requires { length code.now.bodies < 2 ^ 32 }
    ensures { IfOk result (λ entry_bodies. entry_bodies.items ≡ homes_of code.now) }
{
    let mut entry_bodies = unassigned_bodies(alloc, code.entry_count())?;
    for number in 0..code.body_count() {
        let number = number as u32;
        if let Some(body) = code.body(number) {
            record_body(&mut entry_bodies, body, number);
        }
    }
    Ok(entry_bodies)
}

/// Returns the body that encloses a body with this opener, and the number of path steps that remain from there.
fn enclosing_body(entry_bodies: &[Option<u32>], opener: Opener, up: usize) -> Option<(u32, usize)>
    ensures { result ≡ go_out entry_bodies.now (opener_view opener) up }
{
    match opener {
        Opener::ByMain | Opener::ByCalls => None,
        Opener::ByWait(entry) => owning_body(entry_bodies, entry, up),
        Opener::ByStep(entry) => {
            if up == 0 {
                None
            } else {
                owning_body(entry_bodies, entry, up - 1)
            }
        }
    }
}

/// Returns the body that contains the entry, with the remaining steps unchanged.
fn owning_body(entry_bodies: &[Option<u32>], entry: u32, up: usize) -> Option<(u32, usize)>
    ensures { result ≡ at_home (home_of entry_bodies.now entry) up }
{
    if entry as usize >= entry_bodies.len() {
        return None;
    }
    match entry_bodies[entry as usize] {
        Some(body) => Some((body, up)),
        None => None,
    }
}

/// Returns the slot of a variable or parameter of the body itself, if no steps remain.
///
/// The variables of the body come first, then the parameters of its function.
fn slot_if(body: &Body, places: &VariableIndex, up: usize, owned: Owned) -> Option<usize>
    requires { FindsPlaces (body_view body.now).makes places.now }
    ensures { result ≡ own_if up (body_view body.now) (owned_view owned) }
{
    if up > 0 {
        return None;
    }
    match owned {
        Owned::Local(variable) => places.of(variable),
        Owned::Parameter(place, _) => match body.opener {
            Opener::ByCalls => Some(body.makes.len().saturating_add(place)),
            _ => None,
        },
    }
}

/// Creates the variable index of each body, indexed by the number of the body.
fn all_places(alloc: Global, code: &Code) -> Result<Vec<VariableIndex>, AllocError>
    requires { length code.now.bodies < 2 ^ 32 }
    ensures each { IfOk result (λ all. AllFrom (λ b m. FindsPlaces (body_at code.now b).makes m) 0 all.items) }
    ensures all { IfOk result (λ all. length all.items ≡ length code.now.bodies) }
{
    let mut all = Vec::with_capacity(alloc, code.body_count())?;
    for number in 0..code.body_count() {
        let number = number as u32;
        let Some(body) = code.body(number) else {
            break;
        };
        all.push(places_among(alloc, body.makes.as_slice())?)?;
    }
    Ok(all)
}

/// The resolver of the names of one code.
#[derive(Drop)]
pub struct NameResolver {
    /// The body of each entry.
    entry_bodies: Vec<Option<u32>>,
    /// The variable index of each body.
    places: Vec<VariableIndex>,
}

impl NameResolver {
    /// Creates the resolver for this code.
    pub fn new(alloc: Global, code: &Code) -> Result<NameResolver, AllocError>
        requires { length code.now.bodies < 2 ^ 32 }
        ensures { IfOk result (IsLeads code.now) }
    {
        Ok(NameResolver {
            entry_bodies: entry_bodies(alloc, code)?,
            places: all_places(alloc, code)?,
        })
    }

    /// Returns the body that contains an entry, or `None` if none does.
    pub fn home(&self, number: u32) -> Option<u32>
        ensures { result ≡ home_of self.now.entry_bodies.items number }
    {
        if number as usize >= self.entry_bodies.len() {
            return None;
        }
        self.entry_bodies[number as usize]
    }

    /// Returns the variable index of a body.
    #[tactic(auto, using(crate::proofs::Tables::all_at))]
    pub fn places(&self, body: u32) -> Option<&VariableIndex>
        ensures { (C : Code) → IsLeads C self.now → MatchOption result (length C.bodies ≤ body)
            (λ places. (body < length C.bodies) × FindsPlaces (body_at C body).makes places.now) }
    {
        if body as usize >= self.places.len() {
            return None;
        }
        Some(&self.places[body as usize])
    }

    /// Resolves a name of the body, or returns `None` if it refers to nothing.
    ///
    /// The search walks outwards through the enclosing bodies, and takes at most one step for each body of the code.
    #[tactic(auto, using(crate::proofs::Spots::spot_own, crate::proofs::Spots::spot_none, crate::proofs::Spots::spot_out, crate::proofs::Spots::spot_past, crate::proofs::Spots::spot_end))]
    pub fn spot_in(&self, code: &Code, body: u32, name: Name) -> Option<LexicalAddress>
        requires { IsLeads code.now self.now }
        ensures { result ≡ spot_in code.now body (name_view name) }
    {
        let mut at = body;
        let mut up = name.up;
        for levels in 0..code.body_count() {
            let found = code.body(at)?;
            let places = self.places(at)?;
            if let Some(slot) = slot_if(found, places, up, name.owned) {
                return Some(LexicalAddress { levels, slot });
            }
            let (outer, left) = enclosing_body(self.entry_bodies.as_slice(), found.opener, up)?;
            at = outer;
            up = left;
        }
        None
    }
}
