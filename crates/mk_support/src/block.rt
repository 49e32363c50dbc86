ghost use Rattle.std.specs.Prelude.{◌≡◌, length};

use crate::bits::bit_of;
use crate::held::HeldLead;
use mk_model::NoMemory;
use mk_move::{Move, Side, first_bit};
use std::alloc::Global;

/// So many leads are a full block.
const FULL: usize = 32;

/// Some of the leads: their masks one after another, and their places.
#[derive(Debug, Drop)]
pub(crate) struct Block {
    masks: Vec<u64>,
    places: Vec<u32>,
    ghost paired: { length masks.items ≡ length places.items },
}

impl Block {
    ghost use Rattle.std.specs.Prelude.{[], ◌∷◌, ◌++◌, ◌<◌, ◌⊎◌, All, IfSome, IfNone, IfOk, OnOk, OnErr, ℕ};
    ghost use Rattle.std.specs.Int.{bit_at};
    ghost use Rattle.std.specs.Prelude.{◌≢◌};
    ghost use Rattle.mk_move.specs.Sides.{part_of, DividesAt};
    ghost use Rattle.mk_move.specs.Masks.{IsMask};
    ghost use Rattle.mk_support.specs.Blocks.{HoldsIn, IsPlacedLead, IsRefused, IsShare, IsShareWith, TellsApart};

    /// A block without leads.
    pub(crate) fn new(alloc: Global) -> Block
        ensures masks { result.masks.items ≡ [] }
        ensures places { result.places.items ≡ [] }
    {
        Block {
            masks: Vec::new(alloc),
            places: Vec::new(alloc),
        }
    }

    /// Puts a lead at the end. It is unchanged where there is no memory.
    pub(crate) fn push(&mut self, mask: u64, place: u32) -> Result<(), NoMemory>
        ensures masks { OnOk result (self.new.masks.items ≡ self.old.masks.items ++ mask ∷ []) }
        ensures places { OnOk result (self.new.places.items ≡ self.old.places.items ++ place ∷ []) }
        ensures same_masks { OnErr result (self.new.masks.items ≡ self.old.masks.items) }
        ensures same_places { OnErr result (self.new.places.items ≡ self.old.places.items) }
    {
        self.places.reserve(1)?;
        self.masks.push(mask)?;
        self.places.push(place)?;
        Ok(())
    }

    /// The place of one of its leads that divides the part of `r` on that side, which has that mask, and none exactly
    /// where no lead does. All leads have as many columns as `r`.
    pub(crate) fn find(&self, leads: &[HeldLead], r: &Move, side: Side, part: u64) -> Option<u32>
        requires columns { All (λ lead. length lead ≡ length r.now.entries) leads.now }
        requires placed { (m p : ℕ) → HoldsIn self.now m p → IsPlacedLead leads.now m p }
        requires part { IsMask (part_of side r.now.entries) part }
        ensures found { IfSome result (DividesAt leads.now (part_of side r.now.entries)) }
        ensures none { IfNone result ((m p : ℕ) → HoldsIn self.now m p → IsRefused leads.now (part_of side r.now.entries) p) }
    {
        let places = self.places.as_slice();
        for (index, mask) in self.masks.iter().enumerate() {
            if *mask & !part == 0 {
                let place = places[index];
                if leads[place as usize].divides_within(r, side) {
                    return Some(place);
                }
            }
        }
        None
    }

    /// Of the bits in which its masks and this one are not all the same, that which most of its masks have, where it is full and
    /// there is one.
    pub(crate) fn splitting_bit(&self, mask: u64) -> Option<u32>
        ensures splits { IfSome result (TellsApart self.now mask) }
        ensures none { IfNone result ((length self.now.masks.items < 32) ⊎ All (λ m. m ≡ mask) self.now.masks.items) }
    {
        if self.masks.len() < FULL {
            return None;
        }
        let mut differing = 0;
        for other in &self.masks {
            differing |= *other ^ mask;
        }
        if differing == 0 {
            return None;
        }
        Some(self.most_common(differing))
    }

    /// Of bits, at least one, that which most of its masks have.
    fn most_common(&self, bits: u64) -> u32
        requires { bits ≢ 0 }
        ensures range { result < 64 }
        ensures set { bit_at bits result ≡ 1 }
    {
        let (mut best, mut left) = first_bit(bits);
        let mut most = self.count_with(best);
        while left != 0 {
            let (bit, others) = first_bit(left);
            let count = self.count_with(bit);
            if count > most {
                best = bit;
                most = count;
            }
            left = others;
        }
        best
    }

    /// How many of its masks have the bit.
    fn count_with(&self, bit: u32) -> usize
        requires { bit < 64 }
    {
        let mut count: usize = 0;
        for mask in &self.masks {
            if bit_of(*mask, bit) == 1 {
                count = count.saturating_add(1);
            }
        }
        count
    }

    /// A block of its leads whose masks have this bit, 0 or 1, there.
    fn share(&self, alloc: Global, bit: u32, wanted: u64) -> Result<Block, NoMemory>
        requires { bit < 64 }
        ensures { IfOk result (IsShare self.now bit wanted) }
    {
        let mut share = Block::new(alloc);
        for (index, mask) in self.masks.iter().enumerate() {
            if bit_of(*mask, bit) == wanted {
                share.push(*mask, self.places[index])?;
            }
        }
        Ok(share)
    }

    /// A block of those leads, and of the one with this mask and this place where it is of them.
    pub(crate) fn share_with(
        &self,
        alloc: Global,
        bit: u32,
        wanted: u64,
        mask: u64,
        place: u32,
    ) -> Result<Block, NoMemory>
        requires { bit < 64 }
        ensures { IfOk result (IsShareWith self.now bit wanted mask place) }
    {
        let mut share = self.share(alloc, bit, wanted)?;
        if bit_of(mask, bit) == wanted {
            share.push(mask, place)?;
        }
        Ok(share)
    }
}
