ghost use Rattle.std.specs.Prelude.{◌≡◌, ◌≤◌, ◌<◌, ◌↔◌, length, All, IfOk, IsTrue, ℕ, ℤ, pos, ◌≤ℤ◌, ◌<ℤ◌};
ghost use Rattle.std.specs.Int.{int_max};
ghost use Rattle.mk_model.specs.Vectors.{IsEntry, positive_part};
ghost use Rattle.mk_model.specs.Reductions.{Divides};
ghost use Rattle.mk_move.specs.Masks.{HasPositive};
ghost use Rattle.mk_move.specs.Sides.{part_of, entry_on};
ghost use Rattle.mk_support.specs.HeldLeads.{ListsFrom, Fits};

use mk_model::{Entry, NoMemory};
use mk_move::{Move, Side, least_unmasked};
use std::alloc::Global;
use std::marker::Model;

/// An entry of a vector, with its column.
#[derive(Clone, Copy, Debug, PartialEq, Eq)]
pub(crate) struct ColumnEntry {
    column: u32,
    entry: Entry,
}

/// The lead of a move, by its mask and by those of its positive entries that the mask doesn't give.
#[derive(Debug, Drop)]
pub(crate) struct HeldLead {
    columns: u32,
    mask: u64,
    listed: Vec<ColumnEntry>,
}

impl Model for HeldLead {
    ghost use Rattle.std.specs.Prelude.{List, ℤ};
    ghost use Rattle.mk_support.specs.HeldLeads.{lead_of, IsHeld};

    ghost Value = { List ℤ };

    ghost view = { λ h. lead_of h.columns h.mask h.listed.items };

    ghost invariant = { λ h. IsHeld h.mask h.listed.items (lead_of h.columns h.mask h.listed.items) };
}

impl HeldLead {
    /// The lead of the move.
    pub(crate) fn of(alloc: Global, m: &Move) -> Result<HeldLead, NoMemory>
        ensures { IfOk result (λ lead. lead ≡ positive_part m.now.entries) }
    {
        let columns = m.columns();
        let listed = entries_from(alloc, m.entries(), least_unmasked(columns))?;
        Ok(HeldLead {
            columns,
            mask: m.mask(Side::Plus),
            listed,
        })
    }

    /// Does it divide the part of `r` on that side, which has an entry in each block of columns where it has one? Both have
    /// as many columns. (Sturmfels, chapter 1)
    pub(crate) fn divides_within(&self, r: &Move, side: Side) -> bool
        requires columns { length self.now ≡ length r.now.entries }
        requires within { (block : ℕ) → HasPositive self.now block → HasPositive (part_of side r.now.entries) block }
        ensures { IsTrue result ↔ Divides self.now (part_of side r.now.entries) }
    {
        all_fit(&self.listed, r.entries(), side)
    }
}

/// The entries of a row of at most 512 columns from that number on, which is at least 1, in the order of their columns.
fn entries_from(alloc: Global, row: &[Entry], least: Entry) -> Result<Vec<ColumnEntry>, NoMemory>
    requires few { length row.now ≤ 512 }
    requires entries { All IsEntry row.now }
    requires range { IsEntry least }
    ensures { IfOk result (λ listed. ListsFrom row.now least (length row.now) listed.items) }
{
    let mut listed = Vec::new(alloc);
    for (column, entry) in row.iter().enumerate() {
        if *entry >= least {
            listed.push(ColumnEntry {
                column: column as u32,
                entry: *entry,
            })?;
        }
    }
    Ok(listed)
}

/// Is none of the entries, all of them positive, above that of the part of the row on that side?
fn all_fit(listed: &[ColumnEntry], row: &[Entry], side: Side) -> bool
    requires columns { All (λ e. e.column < length row.now) listed.now }
    requires range { All (λ e. IsEntry e.entry) listed.now }
    requires positive { All (λ e. pos 0 <ℤ e.entry) listed.now }
    requires entries { All IsEntry row.now }
    ensures { IsTrue result ↔ All (Fits (part_of side row.now)) listed.now }
{
    for at in listed {
        if at.entry > turned(row[at.column as usize], side) {
            return false;
        }
    }
    true
}

/// The entry of a vector or of its negative, whose positive part is the part on that side.
fn turned(entry: Entry, side: Side) -> Entry
    requires { IsEntry entry }
    ensures part { int_max result (pos 0) ≡ entry_on side entry }
    ensures range { IsEntry result }
{
    match side {
        Side::Plus => entry,
        Side::Minus => -entry,
    }
}
