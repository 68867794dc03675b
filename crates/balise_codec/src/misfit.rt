//! Values beside what is due in a packet: the first that doesn't fit there, and why.

ghost use Rattle.std.specs.Prelude.{◌≡◌, None};
ghost use Rattle.balise_codec.specs.Misfits.{first_misfit, front_value, has_no_fields, misfit_of, too_many};

use balise_layout::{LayoutFault, PacketKind, Walk};
use balise_rules::Var;
use std::marker::Model;

/// Why a value isn't one of the packet.
#[derive(Clone, Copy, Debug, PartialEq, Eq)]
pub enum Misfit {
    /// Another variable is due.
    NotDue(Var),
    /// The value doesn't fit the width.
    TooWide,
    /// The values end, and this variable is due.
    Missing(Var),
    /// The packet ends before.
    TooMany,
    /// The value is spare.
    Spare,
    /// NID_PACKET is 0 or 255: a packet of that number has no such fields.
    NoFields,
}

/// The first value that isn't due in the packet, by its place from 0, and why. Takes no memory.
pub fn find_misfit(version: u32, values: &[(Var, u32)]) -> Option<(usize, Misfit)>
    ensures { result ≡ first_misfit version values.now }
{
    if has_no_fields(values) {
        return Some((0, Misfit::NoFields));
    }
    let kind = PacketKind::of(version, number_of(values));
    let mut speller = Speller::new(values);
    match kind.walk(&mut speller) {
        Ok(()) => speller.left_over(),
        Err(_) => speller.into_misfit(),
    }
}

// Whether the values are of packet 0 or of packet 255.
fn has_no_fields(values: &[(Var, u32)]) -> bool
    ensures { result ≡ has_no_fields values.now }
{
    let [(var, number), ..] = values else {
        return false;
    };
    *var == Var::NidPacket && (*number == 0 || *number == 255)
}

// The first value.
fn number_of(values: &[(Var, u32)]) -> u32
    ensures { result ≡ front_value values.now }
{
    match values {
        [] => 0,
        [(_, number), ..] => *number,
    }
}

/// Why the first of these values isn't one of this variable.
pub fn misfit_of(var: Var, left: &[(Var, u32)]) -> Option<Misfit>
    ensures { result ≡ misfit_of var left.now }
{
    let [(due, value), ..] = left else {
        return Some(Misfit::Missing(var));
    };
    if *due != var {
        return Some(Misfit::NotDue(var));
    }
    if *value >> var.width() != 0 {
        return Some(Misfit::TooWide);
    }
    None
}

// Values on their way along a packet's table.
#[derive(Drop)]
struct Speller<'a> {
    values: &'a [(Var, u32)],
    count: usize,
    misfit: Option<(usize, Misfit)>,
}

impl<'a> Model for Speller<'a> {
    ghost use Rattle.std.specs.Prelude.{◌≤◌, drop, length};
    ghost use Rattle.balise_codec.specs.Misfits.{Progress};

    ghost Value = { Progress };

    ghost view = { λ s. record { left = drop s.count s.values.now; count = s.count; misfit = s.misfit } };

    ghost invariant = { λ s. s.count ≤ length s.values.now };
}

impl<'a> Speller<'a> {
    fn new(values: &'a [(Var, u32)]) -> Speller<'a>
        ensures { result ≡ record { left = values.now; count = 0; misfit = None } }
    {
        Speller {
            values,
            count: 0,
            misfit: None,
        }
    }

    // A value past the packet's end.
    fn left_over(&self) -> Option<(usize, Misfit)>
        ensures { result ≡ too_many self.now.count self.now.left }
    {
        if self.count < self.values.len() {
            return Some((self.count, Misfit::TooMany));
        }
        None
    }

    // What was found.
    fn into_misfit(self) -> Option<(usize, Misfit)>
        ensures { result ≡ self.entry.misfit }
    {
        self.misfit
    }
}

impl<'a> Walk for Speller<'a> {
    ghost use Rattle.std.specs.Prelude.{false};
    ghost use Rattle.balise_codec.specs.Misfits.{walk_values};

    ghost allocates = { false };

    ghost run = { walk_values };

    fn take(&mut self, var: Var) -> Result<u32, LayoutFault> {
        if var == Var::LPacket {
            return Ok(0);
        }
        if let Some(misfit) = misfit_of(var, &self.values[self.count..]) {
            self.misfit = Some((self.count, misfit));
            return Err(LayoutFault::LayoutMismatch);
        }
        let (_, value) = self.values[self.count];
        self.count += 1;
        Ok(value)
    }

    fn end(&mut self) -> Result<(), LayoutFault> {
        if self.count < self.values.len() {
            self.misfit = Some((self.count, Misfit::TooMany));
            return Err(LayoutFault::LayoutMismatch);
        }
        Ok(())
    }

    fn leave(&mut self) -> Result<(), LayoutFault> {
        Ok(())
    }

    fn spare(&mut self) -> LayoutFault {
        self.misfit = Some((self.count.saturating_sub(1), Misfit::Spare));
        LayoutFault::LayoutMismatch
    }
}
