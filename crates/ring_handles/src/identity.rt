//! Numbers that distinguish two rings, broadcast buffers, counters or conductors.
ghost use Rattle.std.specs.Prelude.{◌≡◌, ◌≢◌, false, true};

/// The number of a ring, a broadcast buffer, counters or a conductor, which its maker passes. Each handle of it has the
/// same.
#[derive(Clone, Copy)]
pub struct Identity {
    /// The number.
    pub number: u64,
}

impl Identity {
    /// Tests whether another one is the same.
    pub(crate) fn is(self, other: Identity) -> bool
        ensures same { result ≡ true → self ≡ other }
        ensures others { result ≡ false → self ≢ other }
    {
        self.number == other.number
    }
}
