/// Pairs of places some of which are settled.
pub trait SettledPairs {
    ghost use Rattle.std.specs.Prelude.{◌↔◌, ◌≤◌, ℕ, List, IsTrue};
    ghost use Rattle.mk_model.specs.CoreStates.{Settle};
    ghost use Rattle.mk_model.specs.Events.{AreSettled};

    ghost journal: { Self → List Settle };

    /// Is the pair of two places settled, in either order of the two?
    fn is_settled(&self, i: u32, j: u32) -> bool
        ensures { IsTrue result ↔ AreSettled (journal self.now) i j };

    /// From this place on no place has a settled pair with `j`.
    fn settled_end(&self, j: u32) -> u32
        ensures { (k : ℕ) → result ≤ k → ¬ (AreSettled (journal self.now) j k) };
}
