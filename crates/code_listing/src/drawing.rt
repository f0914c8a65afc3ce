//! The inputs of a listing or a graph.
ghost use Rattle.std.specs.Prelude.{◌≡◌};
ghost use Rattle.code_listing.specs.Labels.{drawing_labels, labels_of};

use crate::needs::ListingContext;
use crate::producers::Producers;
use crate::source_map::SourceMap;
use flow::script::Function;
use std::alloc::Allocator;
use task_code::code::Code;

/// The inputs of a listing: the code, the source map and functions of its script, the listing number of each body, and
/// the producers of unnamed values.
#[derive(Drop)]
pub struct Drawing<'a, 's, A: Allocator> {
    pub code: &'a Code,
    pub found: &'a SourceMap<'s>,
    pub functions: &'a Vec<Function<A>, A>,
    pub places: &'a Vec<usize>,
    pub producers: &'a Producers,
}

impl<'a, 's, A: Allocator> Drawing<'a, 's, A> {
    /// Returns the lookup context of the entry of this number in a body of this function.
    pub fn scope(&self, function: usize, number: usize) -> ListingContext<'a, 's, A>
        ensures labels { labels_of result ≡ drawing_labels self.now }
        ensures place { (result.function ≡ function) × (result.number ≡ number) }
    {
        ListingContext {
            found: self.found,
            functions: self.functions,
            producers: self.producers,
            function,
            number,
        }
    }
}
