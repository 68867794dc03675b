//! Going over the fields of a packet's bits.

ghost use Rattle.std.specs.Prelude.{◌≡◌, ◌≤◌, ◌-◌, take, drop, length};

use crate::fault::LayoutFault;
use crate::visit::Visit;
use crate::walk::Walk;
use balise_bits::{BitSlice, Bits};
use balise_rules::Var;
use std::marker::Model;

/// A visitor on its way over some bits, seen as what it keeps and the bits that are left.
#[derive(Drop)]
pub struct Walker<'a, V: Drop> {
    bits: BitSlice<'a>,
    at: usize,
    end: usize,
    visitor: V,
}

impl<'a, V: Drop> Model for Walker<'a, V> {
    ghost use Rattle.std.specs.Prelude.{List, Bool, ◌≤◌, ◌-◌, take, drop, length};

    ghost Value = { V × List Bool };

    ghost view = { λ w. (w.visitor, take (w.end - w.at) (drop w.at w.bits)) };

    ghost invariant = { λ w. (w.at ≤ w.end) × (w.end ≤ length w.bits) };
}

impl<'a, V: Visit + Drop> Walker<'a, V> {
    /// From the place `at` up to the place `end`.
    pub fn new(visitor: V, bits: &'a Bits, at: usize, end: usize) -> Walker<'a, V>
        requires ordered { at ≤ end }
        requires within { end ≤ length bits.now }
        ensures { result ≡ (visitor, take (end - at) (drop at bits.now)) }
    {
        Walker {
            bits: bits.as_slice(),
            at,
            end,
            visitor,
        }
    }

    /// What the visitor kept.
    pub fn into_visitor(self) -> V
        ensures { result ≡ self.entry.0 }
    {
        let Walker {
            bits: _,
            at: _,
            end: _,
            visitor,
        } = self;
        visitor
    }
}

impl<'a, V: Visit + Drop> Walk for Walker<'a, V> {
    ghost use Rattle.balise_layout.specs.Walks.{walk};

    ghost allocates = { V.allocates };

    ghost run = { walk V.step };

    #[inline(always)]
    fn take(&mut self, var: Var) -> Result<u32, LayoutFault> {
        let width = var.width();
        let left = self.end - self.at;
        if left < width as usize {
            return Err(LayoutFault::LayoutMismatch);
        }
        let value = self.bits.number(self.at, width);
        self.visitor.see(left, var, value)?;
        self.at += width as usize;
        Ok(value)
    }

    fn end(&mut self) -> Result<(), LayoutFault> {
        if self.at < self.end {
            return Err(LayoutFault::LayoutMismatch);
        }
        Ok(())
    }

    #[tactic(auto, using(crate::proofs::Walks::walk_done))]
    fn leave(&mut self) -> Result<(), LayoutFault> {
        Ok(())
    }

    #[tactic(auto, using(crate::proofs::Walks::walk_never))]
    fn spare(&mut self) -> LayoutFault {
        LayoutFault::LayoutMismatch
    }
}
