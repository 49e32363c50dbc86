ghost use Rattle.std.specs.Prelude.{◌≡◌, ◌<◌, length, All, IfSome, IfNone, IfOk, OnOk, OnErr, ℕ};
ghost use Rattle.mk_move.specs.Sides.{part_of, DividesAt};
ghost use Rattle.mk_move.specs.Masks.{IsMask};
ghost use Rattle.mk_support.specs.Blocks.{IsRefused};
ghost use Rattle.mk_support.specs.Nodes.{Holds, ArePlaced, AreSplit, Gains, IsSame, ForksTo};

use crate::bits::bit_of;
use crate::block::Block;
use crate::held::HeldLead;
use mk_model::NoMemory;
use mk_move::{Move, Side};
use std::alloc::Global;

/// A tree of leads: a leaf has a block of them; a fork has a bit, and on its two sides the leads whose masks have that
/// bit, and the others.
#[derive(Debug, Drop)]
pub(crate) enum Node {
    Leaf(Block),
    Fork(u32, Box<Node>, Box<Node>),
}

impl Node {
    /// The place of one of its leads that divides the part of `r` on that side, which has that mask, and none exactly
    /// where no lead does. All leads have as many columns as `r`.
    pub(crate) fn find(&self, leads: &[HeldLead], r: &Move, side: Side, part: u64) -> Option<u32>
        requires columns { All (λ lead. length lead ≡ length r.now.entries) leads.now }
        requires split { AreSplit self.now }
        requires placed { ArePlaced leads.now self.now }
        requires part { IsMask (part_of side r.now.entries) part }
        ensures found { IfSome result (DividesAt leads.now (part_of side r.now.entries)) }
        ensures none { IfNone result ((m p : ℕ) → Holds self.now m p → IsRefused leads.now (part_of side r.now.entries) p) }
    {
        match self {
            Node::Leaf(block) => block.find(leads, r, side, part),
            Node::Fork(bit, with, without) => {
                // A lead whose mask has a bit that the part's lacks doesn't divide it.
                if bit_of(part, *bit) == 1 {
                    let found = with.find(leads, r, side, part);
                    if found.is_some() {
                        return found;
                    }
                }
                without.find(leads, r, side, part)
            }
        }
    }

    /// Puts in the lead with this mask and this place. It has the same leads where there is no memory.
    pub(crate) fn insert(&mut self, alloc: Global, mask: u64, place: u32) -> Result<(), NoMemory>
        requires { AreSplit self.old }
        ensures split { AreSplit self.new }
        ensures ok { OnOk result (Gains (Holds self.old) mask place (Holds self.new)) }
        ensures err { OnErr result (IsSame (Holds self.old) (Holds self.new)) }
    {
        match self {
            Node::Leaf(block) => match block.splitting_bit(mask) {
                None => block.push(mask, place),
                Some(bit) => {
                    let fork = fork(alloc, block, bit, mask, place)?;
                    *self = fork;
                    Ok(())
                }
            },
            Node::Fork(bit, with, without) => {
                if bit_of(mask, *bit) == 1 {
                    with.insert(alloc, mask, place)
                } else {
                    without.insert(alloc, mask, place)
                }
            }
        }
    }
}

/// A fork by the bit of the leads of the block, and of the lead with this mask and this place.
fn fork(alloc: Global, block: &Block, bit: u32, mask: u64, place: u32) -> Result<Node, NoMemory>
    requires { bit < 64 }
    ensures { IfOk result (ForksTo block.now mask place) }
{
    let with = block.share_with(alloc, bit, 1, mask, place)?;
    let without = block.share_with(alloc, bit, 0, mask, place)?;
    let with = Box::new(alloc, Node::Leaf(with))?;
    let without = Box::new(alloc, Node::Leaf(without))?;
    Ok(Node::Fork(bit, with, without))
}
