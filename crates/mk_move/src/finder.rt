ghost use Rattle.std.specs.Prelude.{◌≡◌, ◌+◌, ◌^◌, ◌<◌, [], ◌∷◌, ◌++◌, List, ℤ, length, All, IfSome, IfNone, OnOk, OnErr};
ghost use Rattle.mk_model.specs.Vectors.{positive_part};
ghost use Rattle.mk_model.specs.Reductions.{Divides};
ghost use Rattle.mk_move.specs.Sides.{part_of, DividesAt};

use crate::moves::Move;
use crate::side::Side;
use mk_model::NoMemory;

/// Leads at their places, among which one that divides a vector is found. (Sturmfels, chapter 1: division by leading
/// terms)
pub trait Finder {
    ghost leads: { Self → List (List ℤ) };

    /// How many leads it has: fewer than 2^32.
    fn count(&self) -> u32
        ensures { result ≡ length (leads self.now) };

    /// Puts the lead of a move at the end. All leads have as many columns. It is unchanged where there is no memory.
    fn insert(&mut self, m: &Move) -> Result<(), NoMemory>
        requires columns { All (λ lead. length lead ≡ length m.now.entries) (leads self.old) }
        requires room { length (leads self.old) + 1 < 2 ^ 32 }
        ensures ok { OnOk result (leads self.new ≡ leads self.old ++ positive_part m.now.entries ∷ []) }
        ensures err { OnErr result (leads self.new ≡ leads self.old) };

    /// A place whose lead divides the part of `r` on that side, and none exactly where no lead does. Where several do, it
    /// is free which one. All leads have as many columns as `r`.
    fn find(&self, r: &Move, side: Side) -> Option<u32>
        requires { All (λ lead. length lead ≡ length r.now.entries) (leads self.now) }
        ensures found { IfSome result (DividesAt (leads self.now) (part_of side r.now.entries)) }
        ensures none { IfNone result (All (λ lead. ¬ (Divides lead (part_of side r.now.entries))) (leads self.now)) };
}
