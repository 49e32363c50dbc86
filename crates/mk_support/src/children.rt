ghost use Rattle.std.specs.Prelude.{◌≡◌, length, All, IfSome, IfNone, IfOk, OnOk, OnErr, ℕ};
ghost use Rattle.mk_move.specs.Sides.{part_of, DividesAt};
ghost use Rattle.mk_move.specs.Masks.{IsMask};
ghost use Rattle.mk_support.specs.Blocks.{IsPlacedLead, IsRefused};
ghost use Rattle.mk_support.specs.Nodes.{Gains, IsSame};
ghost use Rattle.mk_support.specs.FirstBits.{Has, AreByFirst, IsEmpty};

use crate::bits::lowest_bit;
use crate::block::Block;
use crate::held::HeldLead;
use crate::node::Node;
use mk_model::NoMemory;
use mk_move::{Move, Side, first_bit};
use std::alloc::Global;

/// The place of the child of the mask 0, and as many children before it as a mask has bits.
const UNSET: usize = 64;

/// The top of a tree: a child for each bit of a mask, with the leads whose lowest bit it is, and one for the mask 0. There
/// are none before the first lead comes.
#[derive(Debug, Drop)]
pub(crate) struct Children {
    by_first: Vec<Node>,
}

impl Children {
    /// A tree without leads.
    pub(crate) fn new(alloc: Global) -> Children
        ensures by_first { AreByFirst result.by_first.items }
        ensures none { (m p : ℕ) → ¬ (Has result.by_first.items m p) }
    {
        Children {
            by_first: Vec::new(alloc),
        }
    }

    /// The place of one of its leads that divides the part of `r` on that side, which has that mask, and none exactly
    /// where no lead does. All leads have as many columns as `r`.
    pub(crate) fn find(&self, leads: &[HeldLead], r: &Move, side: Side, part: u64) -> Option<u32>
        requires columns { All (λ lead. length lead ≡ length r.now.entries) leads.now }
        requires by_first { AreByFirst self.now.by_first.items }
        requires placed { (m p : ℕ) → Has self.now.by_first.items m p → IsPlacedLead leads.now m p }
        requires part { IsMask (part_of side r.now.entries) part }
        ensures found { IfSome result (DividesAt leads.now (part_of side r.now.entries)) }
        ensures none { IfNone result ((m p : ℕ) → Has self.now.by_first.items m p → IsRefused leads.now (part_of side r.now.entries) p) }
    {
        let children = self.by_first.as_slice();
        if children.is_empty() {
            return None;
        }
        // A lead whose mask has a bit that the part's lacks doesn't divide it.
        let mut left = part;
        while left != 0 {
            let (first, others) = first_bit(left);
            let found = children[first as usize].find(leads, r, side, part);
            if found.is_some() {
                return found;
            }
            left = others;
        }
        children[UNSET].find(leads, r, side, part)
    }

    /// Puts in the lead with this mask and this place. It has the same leads where there is no memory.
    pub(crate) fn insert(&mut self, alloc: Global, mask: u64, place: u32) -> Result<(), NoMemory>
        requires { AreByFirst self.old.by_first.items }
        ensures by_first { AreByFirst self.new.by_first.items }
        ensures ok { OnOk result (Gains (Has self.old.by_first.items) mask place (Has self.new.by_first.items)) }
        ensures err { OnErr result (IsSame (Has self.old.by_first.items) (Has self.new.by_first.items)) }
    {
        self.open(alloc)?;
        let first = lowest_bit(mask) as usize;
        self.by_first[first].insert(alloc, mask, place)
    }

    /// Makes the children if there are none. It is unchanged where there is no memory.
    fn open(&mut self, alloc: Global) -> Result<(), NoMemory>
        requires { AreByFirst self.old.by_first.items }
        ensures by_first { AreByFirst self.new.by_first.items }
        ensures count { OnOk result (length self.new.by_first.items ≡ 65) }
        ensures same { IsSame (Has self.old.by_first.items) (Has self.new.by_first.items) }
    {
        if self.by_first.is_empty() {
            self.by_first = without_leads(alloc)?;
        }
        Ok(())
    }
}

/// A child without leads for each bit of a mask, and one more.
fn without_leads(alloc: Global) -> Result<Vec<Node>, NoMemory>
    ensures { IfOk result (λ nodes. (length nodes.items ≡ 65) × All IsEmpty nodes.items) }
{
    let mut nodes = Vec::with_capacity(alloc, UNSET + 1)?;
    for _ in 0..UNSET + 1 {
        nodes.push(Node::Leaf(Block::new(alloc)))?;
    }
    Ok(nodes)
}
