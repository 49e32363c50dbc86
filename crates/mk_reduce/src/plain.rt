ghost use Rattle.std.specs.Prelude.{◌≡◌, ◌^◌, ◌<◌, [], length, All, IfSome, IfNone};
ghost use Rattle.mk_model.specs.Reductions.{Divides};
ghost use Rattle.mk_move.specs.Sides.{part_of, DividesAt};
ghost use Rattle.mk_reduce.specs.Leads.{leads_of};

use mk_model::NoMemory;
use mk_move::{Finder, Move, Side, lead_divides};
use std::alloc::Global;
use std::marker::Model;

/// A finder that keeps the moves whose leads it has, fewer than 2^32, and tries each in turn.
/// (Sturmfels, chapter 1: division by leading terms)
#[derive(Debug, Drop)]
pub struct PlainFinder {
    moves: Vec<Move>,
}

impl Model for PlainFinder {
    ghost use Rattle.std.specs.Prelude.{◌<◌, ◌^◌, List, ℤ, length};
    ghost use Rattle.mk_reduce.specs.Leads.{leads_of};

    ghost Value = { List (List ℤ) };

    ghost view = { λ f. leads_of f.moves.items };

    ghost invariant = { λ f. length f.moves.items < 2 ^ 32 };
}

impl PlainFinder {
    /// A finder without leads.
    pub fn new(alloc: Global) -> PlainFinder
        ensures { result ≡ [] }
    {
        PlainFinder {
            moves: Vec::new(alloc),
        }
    }
}

impl Finder for PlainFinder {
    ghost leads = { λ f. f };

    fn count(&self) -> u32 {
        self.moves.len() as u32
    }

    fn insert(&mut self, m: &Move) -> Result<(), NoMemory> {
        let copy = m.try_copy()?;
        self.moves.push(copy)?;
        Ok(())
    }

    fn find(&self, r: &Move, side: Side) -> Option<u32> {
        place_dividing(&self.moves, r, side)
    }
}

/// A place whose lead divides the part of `r` on that side: which one is free. All have as many columns.
fn place_dividing(moves: &[Move], r: &Move, side: Side) -> Option<u32>
    requires few { length moves.now < 2 ^ 32 }
    requires columns { All (λ lead. length lead ≡ length r.now.entries) (leads_of moves.now) }
    ensures found { IfSome result (DividesAt (leads_of moves.now) (part_of side r.now.entries)) }
    ensures none { IfNone result (All (λ lead. ¬ (Divides lead (part_of side r.now.entries))) (leads_of moves.now)) }
{
    for (place, m) in moves.iter().enumerate() {
        if lead_divides(m, r, side) {
            return Some(place as u32);
        }
    }
    None
}
