//! How who takes the lines of the immediate context comes by the lists of the others.

use std::alloc::AllocError;

/// The finished lists of the deferred contexts, by context and number.
pub trait ListSource<L> {
    ghost use Rattle.std.specs.Prelude.{◌≡◌, ◌<◌, ℕ, IfOk, IsTrue, MatchBool};
    ghost use Rattle.recorders.specs.Asking.{Asked};

    /// For which lines lists are asked, and by which queue they come.
    ghost frame: { Self → Asked };

    /// Which list a context and a number name.
    ghost right: { Self → ℕ → ℕ → L };

    /// All lists that came by a port are those that they are taken for.
    ghost agrees: { Self → Type 0 };

    /// A list that is here.
    ghost holds: { Self → ℕ → ℕ → Type 0 };

    /// A list that is not here and does not come: its context stopped before it finished it.
    ghost lacks: { Self → ℕ → ℕ → Type 0 };

    /// Sees to it that a list is here, if it comes at all, and says whether it is. This may wait for its recorder. A list
    /// that was finished and is not here was lost for want of memory.
    fn seek(&mut self, context: u32, number: u32) -> Result<bool, AllocError>
        requires { context < 8 }
        ensures frame { frame self.new ≡ frame self.old }
        ensures right { right self.new ≡ right self.old }
        ensures agrees { agrees self.new → agrees self.old }
        ensures found { IfOk result (λ there. MatchBool there (holds self.new context number) (lacks self.new context number)) };

    /// Whether a list is here, once all that was sent is taken. It waits for nobody.
    fn is_here(&mut self, context: u32, number: u32) -> bool
        requires { context < 8 }
        ensures frame { frame self.new ≡ frame self.old }
        ensures right { right self.new ≡ right self.old }
        ensures agrees { agrees self.new → agrees self.old }
        ensures here { IsTrue result → holds self.new context number };

    /// A list that is here.
    fn list(&self, context: u32, number: u32) -> &L
        requires context { context < 8 }
        requires held { holds self.now context number }
        ensures { agrees self.now → result.now ≡ right self.now context number };
}
