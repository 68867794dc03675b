//! Which group has an identity, and which places name it.

ghost use Rattle.std.specs.Prelude.{◌≡◌, ◌≢◌, IfErr, OnOk, OnErr, None, Some, true, false};
ghost use Rattle.std.specs.Option.{IsSome, option_copied};
ghost use Rattle.balise_index.specs.Identities as slots;
ghost use Rattle.balise_index.specs.NameIndex.{indexed, names_of, tags_of, IsUnclaimed, Moves, Sets, Updates};

use crate::identity_map::IdentityMap;
use crate::link_place::LinkPlace;
use crate::links::Links;
use crate::tag_code::{own_code, tag_of_own};
use balise_rules::{Id, Refusal, Tag};
use std::alloc::{AllocError, Global};
use std::marker::Model;
use std::mem;

/// For each identity the tag of the group that has it, and the places that name it. Both stand in one slot, so that they are
/// found at once. An identity that no group has and no place names takes no slot.
#[derive(Drop)]
pub struct NameIndex {
    held: IdentityMap<Named>,
}

/// The group of an identity, and the places that name it.
#[derive(Drop)]
pub(crate) struct Named {
    // The code of the group's tag, or `NO_OWNER`.
    owner: u32,
    links: Links,
}

/// Where no group has the identity. No tag has this code.
const NO_OWNER: u32 = 4294967295;

impl Model for NameIndex {
    ghost use Rattle.balise_index.specs.NameIndex as specs;

    ghost Value = { specs.NameIndex };

    ghost view = { λ x. x.held };
}

impl NameIndex {
    /// No identity. Takes no memory.
    pub fn new(alloc: Global) -> NameIndex
        ensures tags { (q : Id) → indexed (tags_of result) q ≡ None }
        ensures names { (q : Id) → indexed (names_of result) q ≡ None }
    {
        NameIndex {
            held: IdentityMap::new(alloc),
        }
    }

    /// The tag of the group that has an identity.
    pub fn tag(&self, id: Id) -> Option<Tag>
        ensures { result ≡ indexed (tags_of self.now) id }
    {
        match self.held.get(id) {
            Some(named) => tag_of_own(named.owner),
            None => None,
        }
    }

    /// The places that name an identity, if there are any.
    pub fn names(&self, id: Id) -> Option<&Links>
        ensures { option_copied result ≡ indexed (names_of self.now) id }
    {
        match self.held.get(id) {
            Some(named) => {
                if named.links.is_empty() {
                    return None;
                }
                Some(&named.links)
            }
            None => None,
        }
    }

    /// Notes the tag of the group that has an identity. Leaves all as before if an allocation fails, for a tag that no plan
    /// has (`Base` from 292,999,999 on, or `Fresh` above 4,001,000,000), and where `IdentityMap::insert` does.
    pub fn set_tag(&mut self, id: Id, tag: Tag) -> Result<(), AllocError>
        ensures set { OnOk result (Updates (tags_of self.old) (tags_of self.new) id (Some tag)) }
        ensures names { names_of self.new ≡ names_of self.old }
        ensures unchanged { OnErr result (tags_of self.new ≡ tags_of self.old) }
    {
        let Some(code) = own_code(tag) else {
            return Err(AllocError);
        };
        if let Some(named) = self.held.get_mut(id) {
            named.owner = code;
            return Ok(());
        }
        let named = Named {
            owner: code,
            links: Links::new(),
        };
        self.held.insert(id, named)?;
        Ok(())
    }

    /// Notes the tag of the group that is to have an identity.
    ///
    /// Refused, and then all stays: `GroupTwice` where a group has it, `OutOfMemory` where `set_tag` leaves all as before.
    pub fn claim(&mut self, id: Id, tag: Tag) -> Result<(), Refusal>
        ensures free { OnOk result (indexed (tags_of self.old) id ≡ None) }
        ensures set { OnOk result (Updates (tags_of self.old) (tags_of self.new) id (Some tag)) }
        ensures fault { IfErr result (λ e. IsUnclaimed e (indexed (tags_of self.old) id)) }
        ensures names { names_of self.new ≡ names_of self.old }
        ensures unchanged { OnErr result (tags_of self.new ≡ tags_of self.old) }
    {
        if let Some(named) = self.held.get_mut(id) {
            if tag_of_own(named.owner).is_some() {
                return Err(Refusal::GroupTwice);
            }
            let Some(code) = own_code(tag) else {
                return Err(Refusal::OutOfMemory);
            };
            named.owner = code;
            return Ok(());
        }
        if self.set_tag(id, tag).is_err() {
            return Err(Refusal::OutOfMemory);
        }
        Ok(())
    }

    /// Forgets that a group has an identity. Takes no memory.
    pub fn forget_tag(&mut self, id: Id)
        ensures forgotten { Updates (tags_of self.old) (tags_of self.new) id None }
        ensures names { names_of self.new ≡ names_of self.old }
    {
        let Some(named) = self.held.get_mut(id) else {
            return;
        };
        named.owner = NO_OWNER;
        if !named.links.is_empty() {
            return;
        }
        take_out(&mut self.held, id);
    }

    /// Notes that a place names an identity. Leaves all as before where `Links::insert` or `IdentityMap::insert` does.
    pub fn add_name(&mut self, alloc: Global, id: Id, place: LinkPlace) -> Result<(), AllocError>
        ensures added { OnOk result (Sets (names_of self.old) (names_of self.new) id place true) }
        ensures tags { tags_of self.new ≡ tags_of self.old }
        ensures unchanged { OnErr result (names_of self.new ≡ names_of self.old) }
    {
        if let Some(named) = self.held.get_mut(id) {
            named.links.insert(alloc, place)?;
            return Ok(());
        }
        let mut links = Links::new();
        links.insert(alloc, place)?;
        let named = Named {
            owner: NO_OWNER,
            links,
        };
        self.held.insert(id, named)?;
        Ok(())
    }

    /// Forgets that a place names an identity. Takes no memory.
    pub fn forget_name(&mut self, id: Id, place: LinkPlace)
        ensures forgotten { Sets (names_of self.old) (names_of self.new) id place false }
        ensures tags { tags_of self.new ≡ tags_of self.old }
    {
        let Some(named) = self.held.get_mut(id) else {
            return;
        };
        named.links.remove(&place);
        if named.owner != NO_OWNER {
            return;
        }
        if !named.links.is_empty() {
            return;
        }
        take_out(&mut self.held, id);
    }

    /// Gives all places that name one identity to another that a group has and none names. Takes no memory.
    pub fn move_names(&mut self, from: Id, to: Id)
        requires owned { IsSome (indexed (tags_of self.old) to) }
        requires none { indexed (names_of self.old) to ≡ None }
        requires other { from ≢ to }
        ensures moved { Moves (names_of self.old) (names_of self.new) from to }
        ensures tags { tags_of self.new ≡ tags_of self.old }
    {
        let Some(named) = self.held.get_mut(from) else {
            return;
        };
        let links = mem::replace(&mut named.links, Links::new());
        let gone = named.owner == NO_OWNER;
        let Some(named) = self.held.get_mut(to) else {
            return;
        };
        named.links = links;
        if gone {
            take_out(&mut self.held, from);
        }
    }
}

// Takes out the slot of an identity, which says nothing any more.
fn take_out(held: &mut IdentityMap<Named>, id: Id)
    ensures { slots.Updates held.old held.new id None }
{
    // The slot that is taken out has no further use.
    let _ = held.remove(id);
}
