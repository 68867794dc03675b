//! The identities that a packet's elements name.

ghost use Rattle.std.specs.Prelude.{◌≡◌, ◌≤◌, ◌++◌, ◌∷◌, [], length, slice_get, take};
ghost use Rattle.balise_layout.specs.Linked.{most_elements};

use crate::fault::LayoutFault;
use crate::visit::Visit;
use balise_rules::{Id, Var};
use std::marker::Model;

/// How many elements a packet has at most: the first of packet 5, and those that its N_ITER counts in 5 bits
/// (SUBSET-026, chapter 7).
pub const MOST_ELEMENTS: usize = 32;

/// The identities of a packet's elements, one each in order. They are held in place and take no memory.
#[derive(Drop)]
pub struct Elements {
    identities: [Id; 32],
    count: usize,
}

impl Model for Elements {
    ghost use Rattle.std.specs.Prelude.{◌≡◌, ◌≤◌, List, length, take};
    ghost use Rattle.balise_rules.specs.declared.identity.Id.{Id};

    ghost Value = { List Id };

    ghost view = { λ e. take e.count e.identities };

    ghost invariant = { λ e. (e.count ≤ 32) × (length e.identities ≡ 32) };
}

impl Elements {
    /// None.
    pub(crate) fn none() -> Elements
        ensures { result ≡ [] }
    {
        let id = Id {
            country: 0,
            number: 0,
        };
        Elements {
            identities: [id; 32],
            count: 0,
        }
    }

    /// How many there are.
    pub fn len(&self) -> usize
        ensures len { result ≡ length self.now }
        ensures few { length self.now ≤ most_elements }
    {
        self.as_slice().len()
    }

    /// All of them.
    pub fn as_slice(&self) -> &[Id]
        ensures all { result.now ≡ self.now }
        ensures few { length result.now ≤ most_elements }
    {
        &self.identities[..self.count]
    }

    /// The identity of element `k`, from 0.
    pub fn get(&self, k: usize) -> Option<Id>
        ensures { result ≡ slice_get self.now k }
    {
        match self.as_slice().get(k) {
            Some(id) => Some(*id),
            None => None,
        }
    }

    // Adds one, where fewer than the most are there.
    fn push(&mut self, id: Id)
        ensures { self.new ≡ take most_elements (self.old ++ id ∷ []) }
    {
        if self.count < MOST_ELEMENTS {
            self.identities[self.count] = id;
            self.count += 1;
        }
    }
}

/// Keeps the country in force, and an identity for each number of a group.
#[derive(Drop)]
pub struct FindElements {
    country: u32,
    found: Elements,
}

impl Model for FindElements {
    ghost use Rattle.std.specs.Prelude.{ℕ, List};
    ghost use Rattle.balise_rules.specs.declared.identity.Id.{Id};

    ghost Value = { ℕ × List Id };

    ghost view = { λ l. (l.country, l.found) };
}

impl FindElements {
    /// No identity yet.
    pub fn new(country: u32) -> FindElements
        ensures { result ≡ (country, []) }
    {
        FindElements {
            country,
            found: Elements::none(),
        }
    }

    /// The identities.
    pub fn into_elements(self) -> Elements
        ensures { result ≡ self.1 }
    {
        let FindElements { country: _, found } = self;
        found
    }
}

impl Visit for FindElements {
    ghost use Rattle.std.specs.Prelude.{false};
    ghost use Rattle.balise_layout.specs.Linked.{link};

    ghost allocates = { false };

    ghost step = { link };

    fn see(&mut self, _left: usize, var: Var, value: u32) -> Result<(), LayoutFault> {
        if var == Var::NidC {
            self.country = value;
        } else if var == Var::NidBg {
            self.found.push(Id {
                country: self.country,
                number: value,
            });
        }
        Ok(())
    }
}
