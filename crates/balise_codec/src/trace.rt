//! The fields of bits, one after another along a packet's table, and what is due where they can't go on.

ghost use Rattle.std.specs.Prelude.{◌≡◌, ◌≤◌, ◌-◌, [], length};
ghost use Rattle.balise_rules.specs.Bits.{part};
ghost use Rattle.balise_layout.specs.Collected.{all_keyed};
ghost use Rattle.balise_codec.specs.declared.trace.Due.TheVariants.{End};

use balise_bits::Bits;
use balise_layout::{Collect, LayoutFault, Visit, Walk};
use balise_rules::Var;
use std::alloc::Global;
use std::marker::Model;

/// What is due where the bits of a packet can't go on.
#[derive(Clone, Copy, Debug, PartialEq, Eq)]
pub enum Due {
    /// This variable, and fewer bits than its width are left.
    Field(Var),
    /// The end, and bits are left.
    End,
    /// Another value of the field before: its value is spare, or no packet's.
    Another,
}

// Bits on their way along a packet's table.
#[derive(Drop)]
pub(crate) struct Tracer<'a> {
    fields: Collect,
    bits: &'a Bits,
    at: usize,
    end: usize,
    due: Due,
}

impl<'a> Model for Tracer<'a> {
    ghost use Rattle.std.specs.Prelude.{◌-◌, ◌≤◌, drop, length, take};
    ghost use Rattle.balise_codec.specs.Traces.{Trace};

    ghost Value = { Trace };

    ghost view = { λ t. record { fields = t.fields; left = take (t.end - t.at) (drop t.at t.bits.now); due = t.due } };

    ghost invariant = { λ t. (t.at ≤ t.end) × (t.end ≤ length t.bits.now) };
}

impl<'a> Tracer<'a> {
    pub(crate) fn new(alloc: Global, bits: &'a Bits, at: usize, end: usize) -> Tracer<'a>
        requires ordered { at ≤ end }
        requires within { end ≤ length bits.now }
        ensures { result ≡ record { fields = []; left = part at (end - at) bits.now; due = End } }
    {
        Tracer {
            fields: Collect::new(alloc),
            bits,
            at,
            end,
            due: Due::End,
        }
    }

    // What was due at the fault.
    pub(crate) fn due(&self) -> Due
        ensures { result ≡ self.now.due }
    {
        self.due
    }

    // How many bits are left.
    pub(crate) fn left(&self) -> usize
        ensures { result ≡ length self.now.left }
    {
        self.end - self.at
    }

    // The fields.
    pub(crate) fn into_fields(self) -> Vec<(Var, u32, u32)>
        ensures { all_keyed result.items ≡ self.entry.fields }
    {
        self.fields.into_fields()
    }
}

impl<'a> Walk for Tracer<'a> {
    ghost use Rattle.std.specs.Prelude.{true};
    ghost use Rattle.balise_codec.specs.Traces.{trace};

    ghost allocates = { true };

    ghost run = { trace };

    fn take(&mut self, var: Var) -> Result<u32, LayoutFault> {
        let width = var.width();
        let left = self.end - self.at;
        if left < width as usize {
            self.due = Due::Field(var);
            return Err(LayoutFault::LayoutMismatch);
        }
        let value = self.bits.number(self.at, width);
        self.fields.see(left, var, value)?;
        self.at += width as usize;
        Ok(value)
    }

    fn end(&mut self) -> Result<(), LayoutFault> {
        if self.at < self.end {
            self.due = Due::End;
            return Err(LayoutFault::LayoutMismatch);
        }
        Ok(())
    }

    fn leave(&mut self) -> Result<(), LayoutFault> {
        Ok(())
    }

    fn spare(&mut self) -> LayoutFault {
        self.due = Due::Another;
        LayoutFault::LayoutMismatch
    }
}
