ghost use Rattle.std.specs.Prelude.{◌≡◌, []};

use crate::children::Children;
use crate::held::HeldLead;
use mk_model::NoMemory;
use mk_move::{Finder, Move, Side};
use std::alloc::Global;
use std::marker::Model;

/// A finder that keeps a tree of the masks of its leads, at its top by their lowest bits, and looks at a lead where its mask
/// fits. (Sturmfels, chapter 1: division by leading terms)
#[derive(Debug, Drop)]
pub struct SupportTree {
    leads: Vec<HeldLead>,
    children: Children,
}

impl Model for SupportTree {
    ghost use Rattle.std.specs.Prelude.{List, ℤ};
    ghost use Rattle.mk_support.specs.Trees.{IsTree};

    ghost Value = { List (List ℤ) };

    ghost view = { λ t. t.leads.items };

    ghost invariant = { λ t. IsTree t.leads.items t.children.by_first.items };
}

impl SupportTree {
    /// A finder without leads.
    pub fn new(alloc: Global) -> SupportTree
        ensures { result ≡ [] }
    {
        SupportTree {
            leads: Vec::new(alloc),
            children: Children::new(alloc),
        }
    }
}

impl Finder for SupportTree {
    ghost leads = { λ t. t };

    fn count(&self) -> u32 {
        self.leads.len() as u32
    }

    fn insert(&mut self, m: &Move) -> Result<(), NoMemory> {
        let alloc = *self.leads.allocator();
        let lead = HeldLead::of(alloc, m)?;
        self.leads.reserve(1)?;
        let place = self.leads.len() as u32;
        self.children.insert(alloc, m.mask(Side::Plus), place)?;
        self.leads.push(lead)?;
        Ok(())
    }

    fn find(&self, r: &Move, side: Side) -> Option<u32> {
        self.children.find(&self.leads, r, side, r.mask(side))
    }
}
