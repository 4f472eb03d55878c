//! What bytes are read from and written to.

ghost use Rattle.std.specs.Prelude.{◌≡◌, ◌+◌, ◌<◌, ◌≤◌, ◌^◌, ◌++◌, ℕ, List, length, take, IfOk, OnOk, OnErr};
ghost use Rattle.gfxspec.specs.Device.{Gives};

use thiserror::Error;

/// The device failed.
#[derive(Clone, Copy, Debug, PartialEq, Eq, Error)]
#[error("the device failed")]
pub struct Broken;

/// What bytes are read from.
pub trait Source {
    /// Whether it tells its bytes.
    ghost tells: { Self → Type 0 };

    /// The bytes that are left.
    ghost rest: { Self → List ℕ };

    /// How often it failed.
    ghost failures: { Self → ℕ };

    /// Reads into the front of a piece, and answers how many bytes it read: none only at the end.
    fn get(&mut self, piece: &mut [u8]) -> Result<usize, Broken>
        requires { failures self.old < 2 ^ 63 }
        ensures count { IfOk result (λ n. n ≤ length piece.new) }
        ensures told { tells self.old → tells self.new }
        ensures bytes { tells self.old → IfOk result (Gives (rest self.old) (rest self.new) piece.new) }
        ensures moves_none { tells self.old → OnErr result (rest self.new ≡ rest self.old) }
        ensures sound { OnOk result (failures self.new ≡ failures self.old) }
        ensures failed { OnErr result (failures self.new ≡ failures self.old + 1) };
}

/// What bytes are written to.
pub trait Sink {
    /// Whether it tells its bytes.
    ghost tells: { Self → Type 0 };

    /// The bytes that it took.
    ghost written: { Self → List ℕ };

    /// How often it failed.
    ghost failures: { Self → ℕ };

    /// Takes the front of a piece, and answers how many bytes it took: some of a piece that is not empty.
    fn put(&mut self, piece: &[u8]) -> Result<usize, Broken>
        requires { failures self.old < 2 ^ 63 }
        ensures count { IfOk result (λ n. n ≤ length piece.now) }
        ensures some { IfOk result (λ n. 0 < length piece.now → 0 < n) }
        ensures told { tells self.old → tells self.new }
        ensures bytes { tells self.old → IfOk result (λ n. written self.new ≡ written self.old ++ take n piece.now) }
        ensures moves_none { tells self.old → OnErr result (written self.new ≡ written self.old) }
        ensures sound { OnOk result (failures self.new ≡ failures self.old) }
        ensures failed { OnErr result (failures self.new ≡ failures self.old + 1) };
}
