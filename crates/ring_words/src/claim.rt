//! An open claim in the hands of its owner.
use std::marker::Model;

/// An open claim of a `SoloRing`. `commit` or `abort` ends it. It is not `Drop`: a program that forgets one does not
/// compile, since the reader never passes an open claim.
pub struct SoloClaim {
    place: u64,
    index: u32,
    type_id: i32,
    body_len: usize,
}

impl Model for SoloClaim {
    ghost use Rattle.ring_words.specs.Open.{ClaimAt};

    ghost Value = { ClaimAt };

    ghost view = { λ c. record { place = c.place; index = c.index; type_id = c.type_id; len = c.body_len } };
}

impl SoloClaim {
    ghost use Rattle.std.specs.Prelude.{◌≡◌, ◌↔◌, IsTrue};

    pub(crate) fn new(place: u64, index: u32, type_id: i32, len: usize) -> Self
        ensures { result ≡ record { place = place; index = index; type_id = type_id; len = len } }
    {
        SoloClaim {
            place,
            index,
            type_id,
            body_len: len,
        }
    }

    /// The position of its record.
    pub fn place(&self) -> u64
        ensures { result ≡ self.now.place }
    {
        self.place
    }

    /// The byte index of its body in the buffer.
    pub fn index(&self) -> u32
        ensures { result ≡ self.now.index }
    {
        self.index
    }

    /// The type id that it was claimed with.
    pub(crate) fn type_id(&self) -> i32
        ensures { result ≡ self.now.type_id }
    {
        self.type_id
    }

    /// The bytes of its body.
    pub fn len(&self) -> usize
        ensures { result ≡ self.now.len }
    {
        self.body_len
    }

    /// Takes it apart: it was settled.
    pub(crate) fn spend(self) {
        let SoloClaim {
            place: _,
            index: _,
            type_id: _,
            body_len: _,
        } = self;
    }

    /// Leaves the claim open for good, on purpose. The reader then never passes it.
    pub fn leak(self) {
        self.spend();
    }

    /// Tests whether its body has no byte.
    pub fn is_empty(&self) -> bool
        ensures { IsTrue result ↔ (self.now.len ≡ 0) }
    {
        self.len() == 0
    }
}
