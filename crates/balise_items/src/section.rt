//! A header or a packet as it is given.

ghost use Rattle.std.specs.Prelude.{◌≡◌, OnOk};
ghost use Rattle.balise_items.specs.Sections.{begun_at, with_rest, with_value};

use balise_bits::Bits;
use balise_codec::Var;
use std::alloc::{AllocError, Global};
use std::marker::Model;

/// A header or a packet as it is given: the number of the line that begins it, the values of its fields in their order,
/// and the bits after them.
#[derive(Drop)]
pub(crate) struct Section {
    line: u32,
    values: Vec<(Var, u32)>,
    rest: Bits,
}

impl Model for Section {
    ghost use Rattle.balise_items.specs.Sections.{Given};

    ghost Value = { Given };

    ghost view = { λ s. record { line = s.line; values = s.values.items; rest = s.rest } };
}

impl Section {
    /// Before its first field.
    pub(crate) fn new(alloc: Global, line: u32) -> Section
        ensures { result ≡ begun_at line }
    {
        Section {
            line,
            values: Vec::new(alloc),
            rest: Bits::new(alloc),
        }
    }

    /// One field more.
    pub(crate) fn push(&mut self, var: Var, value: u32) -> Result<(), AllocError>
        ensures { OnOk result (self.new ≡ with_value var value self.old) }
    {
        self.values.push((var, value))?;
        Ok(())
    }

    /// The bits after the fields.
    pub(crate) fn set_rest(&mut self, rest: Bits)
        ensures { self.new ≡ with_rest rest self.old }
    {
        self.rest = rest;
    }

    /// The number of the line that begins it.
    pub(crate) fn line(&self) -> u32
        ensures { result ≡ self.now.line }
    {
        self.line
    }

    /// The values of its fields.
    pub(crate) fn values(&self) -> &[(Var, u32)]
        ensures { result.now ≡ self.now.values }
    {
        self.values.as_slice()
    }

    /// The bits after them.
    pub(crate) fn rest(&self) -> &Bits
        ensures { result.now ≡ self.now.rest }
    {
        &self.rest
    }
}
