//! Live statements, by block instance and position.

ghost use Rattle.std.specs.Prelude.{◌≡◌};

use meaning_facts::facts::Place;

/// A live statement: its block instance, its offset and its node.
#[derive(Clone, Copy)]
pub struct LiveStatement {
    pub instance: usize,
    pub at: usize,
    pub node: u32,
}

impl LiveStatement {
    /// Returns the place of a node in the statement's instance.
    pub fn place(self, node: u32) -> Place
        ensures { result ≡ record { instance = self.instance; node = node } }
    {
        Place {
            instance: self.instance,
            node,
        }
    }

    /// Returns the place of the statement itself.
    pub fn own_place(self) -> Place
        ensures { result ≡ record { instance = self.instance; node = self.node } }
    {
        self.place(self.node)
    }
}
