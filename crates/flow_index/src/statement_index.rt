//! The statements of a flow, with a hash table by offset.
ghost use Rattle.std.specs.Prelude.{◌≡◌, ℕ, nat_eq, option_map, IfOk, OnOk};
ghost use Rattle.std.specs.HashMap.{get};
ghost use Rattle.flow.specs.View.{core_of};
ghost use Rattle.language.specs.Core.{Core};
ghost use Rattle.language.specs.Parts.{script_stmts};
ghost use Rattle.flow_index.specs.Candidates.{candidates, is_candidate, only};
ghost use Rattle.flow_index.specs.Noted.{noted_if};
ghost use Rattle.flow_index.specs.Sites.{site_view, sites_view, AreSites, IsNoted};

use crate::site::Site;
use crate::walk::sites_of;
use flow::script::Flow;
use std::alloc::{AllocError, Allocator, Global};
use std::collections::HashMap;

/// The entry of an offset: the only statement there that can be blocked, or a mark that several can.
#[derive(Clone, Copy, PartialEq, Eq, Debug)]
pub enum SiteEntry {
    Once(usize),
    Often,
}

/// All statements of a flow, with lookup by offset of those that can be blocked.
#[derive(Drop)]
pub struct StatementIndex<'a, A: Allocator> {
    pub all: Vec<Site<'a, A>>,
    found: HashMap<usize, SiteEntry>,
}

impl<'a, A: Allocator> StatementIndex<'a, A> {
    /// Creates the index of a flow: the statements of its own block and of the blocks inside it, then those of each
    /// function's body.
    ///
    /// # Errors
    ///
    /// Returns `AllocError` if an allocation fails.
    pub fn of(alloc: Global, flow: &'a Flow<A>) -> Result<StatementIndex<'a, A>, AllocError>
        ensures { IfOk result (λ sites. AreSites (core_of flow.entry.now) sites) }
    {
        let all = sites_of(alloc, flow)?;
        let found = found_among(alloc, all.as_slice())?;
        Ok(StatementIndex { all, found })
    }

    /// Returns the only statement at an offset that can be blocked, or `None` if there is no such statement or there
    /// are several.
    pub fn at(&self, at: usize) -> Option<&Site<'a, A>>
        ensures { (s : Core) → AreSites s self.now → option_map (λ b. site_view b.now) result ≡ only (candidates at (script_stmts s)) }
    {
        match self.noted(at) {
            Some(SiteEntry::Once(i)) => self.all.get(i),
            Some(SiteEntry::Often) => None,
            None => None,
        }
    }

    /// Returns the entry of an offset.
    fn noted(&self, at: usize) -> Option<SiteEntry>
        ensures { result ≡ get nat_eq self.now.found at }
    {
        self.found.get(&at).copied()
    }
}

/// Returns the table of the entries of all offsets.
fn found_among<'a, A: Allocator>(
    alloc: Global,
    sites: &[Site<'a, A>],
) -> Result<HashMap<usize, SiteEntry>, AllocError>
    ensures { IfOk result (λ found. (at : ℕ) → IsNoted at (sites_view sites.now) (get nat_eq found at)) }
{
    let mut found = HashMap::new(alloc);
    for i in 0..sites.len() {
        note(&mut found, i, &sites[i])?;
    }
    Ok(found)
}

/// Adds a statement to the table, if it can be blocked.
fn note<'a, A: Allocator>(
    found: &mut HashMap<usize, SiteEntry>,
    i: usize,
    site: &Site<'a, A>,
) -> Result<(), AllocError>
    ensures { OnOk result ((at : ℕ) → get nat_eq found.new at ≡ noted_if (is_candidate at (site_view site.now)) i (get nat_eq found.old at)) }
{
    if !site.can_be_blocked() {
        return Ok(());
    }
    let at = site.at();
    let noted = match found.get(&at) {
        None => SiteEntry::Once(i),
        Some(_) => SiteEntry::Often,
    };
    found.insert(at, noted)?;
    Ok(())
}
