//! Inputs: what an item can wait for.
ghost use Rattle.std.specs.Prelude.{◌≡◌, ◌%◌, ◌^◌};
ghost use Rattle.rules.specs.Inputs.{covers};
ghost use Rattle.rules.specs.Places.{address, datum, folded, is_at};

// Multiplier (2^64 divided by the golden ratio) that hashes the elements of one array far from those of another.
const SPREAD: u64 = 11_400_714_819_323_198_485;

// Multiplier (2^32 divided by the golden ratio) for the high half of a hash, so that keys which differ in their high
// halves alone have different addresses. Neighbouring keys keep neighbouring addresses.
const FOLD: u64 = 2_654_435_769;

/// An input of an item: something that can become known.
#[derive(Debug, Drop)]
pub enum Input {
    /// A datum as a whole: a scalar that is stored, or an array that is closed.
    Whole(u64),
    /// An element of an array, under a key with this hash.
    Element(u64, u64),
}

impl Default for Input {
    fn default() -> Input {
        Input::Whole(0)
    }
}

impl Input {
    /// Returns true if `other` is known once this input is known. A closed array makes each of its elements known.
    pub fn covers(&self, other: &Input) -> bool
        ensures { result ≡ covers self.now other.now }
    {
        match (self, other) {
            (Input::Whole(a), Input::Whole(b)) => *a == *b,
            (Input::Whole(a), Input::Element(b, _)) => *a == *b,
            (Input::Element(_, _), Input::Whole(_)) => false,
            (Input::Element(a, k), Input::Element(b, l)) => *a == *b && *k == *l,
        }
    }

    /// Returns a copy of the input.
    pub(crate) fn same(&self) -> Input
        ensures { result ≡ self.now }
    {
        match self {
            Input::Whole(datum) => Input::Whole(*datum),
            Input::Element(datum, hash) => Input::Element(*datum, *hash),
        }
    }

    /// Returns the address at which items that wait for this input are noted. It has 32 bits, so inputs may share an
    /// address.
    pub(crate) fn address(&self) -> u32
        ensures { result ≡ address self.now }
    {
        match self {
            Input::Whole(datum) => low(*datum),
            Input::Element(datum, hash) => folded(datum.wrapping_mul(SPREAD).wrapping_add(*hash)),
        }
    }

    /// Returns the low 32 bits of the number of the datum.
    pub(crate) fn datum(&self) -> u32
        ensures { result ≡ datum self.now }
    {
        match self {
            Input::Whole(datum) => low(*datum),
            Input::Element(datum, _) => low(*datum),
        }
    }

    /// Returns true if items that wait for this input are noted at this address. It is the address of the input or of
    /// its datum.
    pub(crate) fn is_at(&self, address: u32) -> bool
        ensures { result ≡ is_at address self.now }
    {
        self.address() == address || self.datum() == address
    }
}

// Returns 32 bits to which both halves of a hash contribute.
#[tactic(auto, unfolding(crate::specs::Places::folded))]
fn folded(hash: u64) -> u32
    ensures { result ≡ folded hash }
{
    low(hash.wrapping_add((hash / 4_294_967_296).wrapping_mul(FOLD)))
}

// Returns the low 32 bits.
fn low(n: u64) -> u32
    ensures { result ≡ n % 2 ^ 32 }
{
    (n % 4_294_967_296) as u32
}
