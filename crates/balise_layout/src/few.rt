//! The identities that a packet of few elements names.

ghost use Rattle.std.specs.Prelude.{◌≡◌, ◌≤◌, ◌++◌, ◌∷◌, [], IfNone, IfSome, false, true, length, nat_lt, if◌then◌else◌};
ghost use Rattle.balise_layout.specs.Linked.{few};

use crate::fault::LayoutFault;
use crate::named::Named;
use crate::visit::Visit;
use balise_rules::{Id, Var};
use std::marker::Model;

/// How many elements are few: most packets have one.
const FEW: usize = 4;

/// The identities that a packet of at most four elements names, one for each element, in order. They are held in place and
/// take no memory, and less has to be cleared for them than for `Elements`.
#[derive(Drop)]
pub struct FewIdentities {
    identities: [Id; FEW],
    count: usize,
}

impl Model for FewIdentities {
    ghost use Rattle.std.specs.Prelude.{◌≡◌, ◌≤◌, List, length, take};
    ghost use Rattle.balise_layout.specs.Linked.{few};
    ghost use Rattle.balise_rules.specs.declared.identity.Id.{Id};

    ghost Value = { List Id };

    ghost view = { λ e. take e.count e.identities };

    ghost invariant = { λ e. (e.count ≤ few) × (length e.identities ≡ few) };
}

impl FewIdentities {
    // None.
    fn none() -> FewIdentities
        ensures { result ≡ [] }
    {
        let id = Id {
            country: 0,
            number: 0,
        };
        FewIdentities {
            identities: [id; FEW],
            count: 0,
        }
    }

    /// All of them.
    pub fn as_slice(&self) -> &[Id]
        ensures all { result.now ≡ self.now }
        ensures few { length result.now ≤ few }
    {
        &self.identities[..self.count]
    }

    // Adds one where there is room, and answers whether there was.
    fn push(&mut self, id: Id) -> bool
        ensures new { self.new ≡ (if nat_lt (length self.old) few then self.old ++ id ∷ [] else self.old) }
        ensures room { result ≡ nat_lt (length self.old) few }
    {
        if self.count >= FEW {
            return false;
        }
        self.identities[self.count] = id;
        self.count += 1;
        true
    }
}

/// Keeps the country in force, the first few identities, and whether there were more.
#[derive(Drop)]
pub(crate) struct FindFew {
    country: u32,
    found: FewIdentities,
    more: bool,
}

impl Model for FindFew {
    ghost use Rattle.std.specs.Prelude.{ℕ, List, Bool};
    ghost use Rattle.balise_rules.specs.declared.identity.Id.{Id};

    ghost Value = { ℕ × List Id × Bool };

    ghost view = { λ l. (l.country, l.found, l.more) };
}

impl FindFew {
    /// No identity yet.
    pub(crate) fn new(country: u32) -> FindFew
        ensures { result ≡ (country, [], false) }
    {
        FindFew {
            country,
            found: FewIdentities::none(),
            more: false,
        }
    }

    /// What was found, as what a packet with elements names.
    pub(crate) fn into_named(self) -> Named
        ensures few { self.2 ≡ false → result ≡ Named.Few self.1 }
        ensures many { self.2 ≡ true → result ≡ Named.Many }
    {
        match self.into_few() {
            Some(few) => Named::Few(few),
            None => Named::Many,
        }
    }

    /// The identities, unless there were more.
    pub(crate) fn into_few(self) -> Option<FewIdentities>
        ensures some { IfSome result (λ f. (self.2 ≡ false) × (f ≡ self.1)) }
        ensures none { IfNone result (self.2 ≡ true) }
    {
        let FindFew {
            country: _,
            found,
            more,
        } = self;
        if more { None } else { Some(found) }
    }
}

impl Visit for FindFew {
    ghost use Rattle.std.specs.Prelude.{false};
    ghost use Rattle.balise_layout.specs.Linked.{link_few};

    ghost allocates = { false };

    ghost step = { link_few };

    fn see(&mut self, _left: usize, var: Var, value: u32) -> Result<(), LayoutFault> {
        if var == Var::NidC {
            self.country = value;
        } else if var == Var::NidBg {
            let country = self.country;
            let pushed = self.found.push(Id {
                country,
                number: value,
            });
            self.more = self.more | !pushed;
        }
        Ok(())
    }
}
