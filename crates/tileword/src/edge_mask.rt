//! Which edges of a triangle are still to be tested.

ghost use Rattle.std.specs.Prelude.{◌≡◌, ◌<◌};

/// A set of a triangle's three edges; edge i lies opposite vertex i.
#[derive(Clone, Copy, Debug, PartialEq, Eq)]
pub struct EdgeMask {
    pub edge0: bool,
    pub edge1: bool,
    pub edge2: bool,
}

impl EdgeMask {
    ghost use Rattle.tileword.specs.EdgeMask.{edge_bits};

    /// The set with these bits: bit i is edge i.
    #[inline]
    pub fn new(bits: u8) -> Self
        requires { bits < 8 }
        ensures { edge_bits result ≡ bits }
    {
        EdgeMask {
            edge0: bits % 2 == 1,
            edge1: bits / 2 % 2 == 1,
            edge2: bits / 4 == 1,
        }
    }

    /// Its bits.
    #[inline]
    pub fn bits(self) -> u8
        ensures value { result ≡ edge_bits self }
        ensures range { result < 8 }
    {
        u8::from(self.edge0) + 2 * u8::from(self.edge1) + 4 * u8::from(self.edge2)
    }
}
