//! All fields of a packet, each with the number of its occurrence.

ghost use Rattle.std.specs.Prelude.{◌≡◌, []};
ghost use Rattle.balise_rules.specs.Forms.{count_of};
ghost use Rattle.balise_layout.specs.Collected.{all_keyed};

use crate::fault::LayoutFault;
use crate::visit::Visit;
use balise_rules::Var;
use std::alloc::{AllocError, Global};
use std::marker::Model;

/// For how many fields memory is taken at first. Most packets have fewer, and each growth copies them.
const FIELDS: usize = 32;

/// Keeps each field: variable, occurrence and value.
#[derive(Drop)]
pub struct Collect {
    fields: Vec<(Var, u32, u32)>,
}

impl Model for Collect {
    ghost use Rattle.balise_rules.specs.Forms.{Fields, Numbered};
    ghost use Rattle.balise_layout.specs.Collected.{all_keyed};

    ghost Value = { Fields };

    ghost view = { λ c. all_keyed c.fields.items };

    ghost invariant = { λ c. Numbered (all_keyed c.fields.items) };
}

impl Collect {
    /// No field yet.
    pub fn new(alloc: Global) -> Collect
        ensures { result ≡ [] }
    {
        Collect {
            fields: Vec::new(alloc),
        }
    }

    /// The fields.
    pub fn into_fields(self) -> Vec<(Var, u32, u32)>
        ensures { all_keyed result.items ≡ self }
    {
        let Collect { fields } = self;
        fields
    }

    // How often a variable stands among the fields so far: one more than the number of its last occurrence.
    fn count(&self, var: Var) -> usize
        ensures { result ≡ count_of var self.now }
    {
        for i in (0..self.fields.len()).rev() {
            let (found, occurrence, _) = self.fields[i];
            if found == var {
                return occurrence as usize + 1;
            }
        }
        0
    }
}

// Takes memory for the fields of a packet where there is none of them yet.
fn make_room(fields: &mut Vec<(Var, u32, u32)>) -> Result<(), AllocError>
    ensures { fields.new.items ≡ fields.old.items }
{
    if fields.is_empty() {
        fields.reserve(FIELDS)?;
    }
    Ok(())
}

impl Visit for Collect {
    ghost use Rattle.std.specs.Prelude.{true};
    ghost use Rattle.balise_layout.specs.Walks.{collect};

    ghost allocates = { true };

    ghost step = { collect };

    // A count past 32 bits would be of more fields than memory holds.
    fn see(&mut self, _left: usize, var: Var, value: u32) -> Result<(), LayoutFault> {
        let Ok(occurrence) = u32::try_from(self.count(var)) else {
            return Err(LayoutFault::OutOfMemory);
        };
        make_room(&mut self.fields)?;
        self.fields.push((var, occurrence, value))?;
        Ok(())
    }
}
