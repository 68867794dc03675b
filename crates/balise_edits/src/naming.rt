//! The identities that packets and groups name, in order, but for number 16383, which names nothing.

ghost use Rattle.std.specs.Prelude.{◌≡◌, ◌++◌, [], ◌∷◌, false, filter, slice_get, Some, None, IfOk, IsOkUnless, OnOk};
ghost use Rattle.balise_rules.specs.declared.variable.Var.TheVariants.{NidBg, QLinkorientation};
ghost use Rattle.balise_rules.specs.Accepting.{Accepted};
ghost use Rattle.balise_rules.specs.declared.tagged_edit.TaggedEdit.TheVariants.{SetVar};
ghost use Rattle.balise_rules.specs.Names.{is_real, names_in, names_in_packets, names_of};
ghost use Rattle.balise_rules.specs.Notes.{noted};
ghost use Rattle.balise_rules.specs.Plan.{country_of, telegram_at, IsSound};
ghost use Rattle.balise_rules.specs.Tags.{same_var};
ghost use Rattle.balise_rules.specs.Telegram.{Telegram};
ghost use Rattle.balise_telegram.specs.Packed.{links_at};
ghost use Rattle.balise_edits.specs.Notes.{are_two, names_in as names_held};

use crate::note::Names;
use balise_plan::{Group, PacketRef, Plan, Telegram};
use balise_rules::{Id, NO_GROUP, Refusal, Tag, Var};
use std::alloc::{AllocError, Global};

/// The identities that a group names.
pub(crate) fn names_of_group(alloc: Global, group: &Group) -> Result<Vec<Id>, Refusal>
    ensures ok { IfOk result (λ names. names.items ≡ names_in group.now) }
    ensures fault { IsOkUnless result Refusal.OutOfMemory }
{
    let mut names = Vec::new(alloc);
    for i in 0..group.count() {
        let Some((_, telegram)) = group.at(i) else {
            return Ok(names);
        };
        add_telegram(&mut names, telegram)?;
    }
    Ok(names)
}

// Adds those that a telegram names.
fn add_telegram(names: &mut Vec<Id>, telegram: &Telegram) -> Result<(), Refusal>
    ensures ok { OnOk result (names.new.items ≡ names.old.items ++ names_in_packets (country_of telegram.now) telegram.now.packets) }
    ensures fault { IsOkUnless result Refusal.OutOfMemory }
{
    let country = telegram.identity().country;
    let mut packets = telegram.packets();
    'packets: loop {
        let Some((_, packet)) = packets.next_linking() else {
            return Ok(());
        };
        add_packet(names, &packet, country)?;
    }
}

/// Adds those that a packet names in a telegram of this country.
pub(crate) fn add_packet(
    names: &mut Vec<Id>,
    packet: &PacketRef,
    country: u32,
) -> Result<(), AllocError>
    ensures { OnOk result (names.new.items ≡ names.old.items ++ names_of country packet.now) }
{
    if !packet.has_elements() {
        return Ok(());
    }
    match packet.few_elements(country) {
        Some(few) => add_real(names, few.as_slice()),
        None => add_many(names, packet, country),
    }
}

// Adds the identities of a packet of any number of elements. Out of line, since `Elements` takes much of the stack.
#[inline(never)]
fn add_many(names: &mut Vec<Id>, packet: &PacketRef, country: u32) -> Result<(), AllocError>
    ensures { OnOk result (names.new.items ≡ names.old.items ++ names_of country packet.now) }
{
    let elements = packet.elements(country);
    add_real(names, elements.as_slice())
}

// Adds those that are of a group: all but 16383.
fn add_real(names: &mut Vec<Id>, identities: &[Id]) -> Result<(), AllocError>
    ensures { OnOk result (names.new.items ≡ names.old.items ++ filter is_real identities.now) }
{
    // An entry keeps the list.
    names.reserve_exact(identities.len())?;
    for k in 0..identities.len() {
        let id = identities[k];
        if id.number == NO_GROUP {
            continue;
        }
        names.push(id)?;
    }
    Ok(())
}

/// The identities that setting a field has to do with, where it is accepted: the old and the new one of a link, or of an
/// orientation the link's. Takes no memory.
pub(crate) fn names_set(plan: &Plan, g: Tag, t: u32, p: Tag, var: Var, k: u32, value: u32) -> Names
    ensures names { Accepted (SetVar g t p var k value) plan.now.groups → names_held result ≡ (noted (SetVar g t p var k value) plan.now.groups).names }
    ensures few { same_var var NidBg ≡ false → are_two result ≡ false }
{
    if var == Var::NidBg {
        return names_of_number(plan, g, t, p, k, value);
    }
    if var == Var::QLinkorientation {
        return names_of_orientation(plan, g, t, p, k, value);
    }
    Names::Neither
}

// Those that setting the number of a link has to do with.
fn names_of_number(plan: &Plan, g: Tag, t: u32, p: Tag, k: u32, value: u32) -> Names
    ensures { Accepted (SetVar g t p NidBg k value) plan.now.groups → names_held result ≡ (noted (SetVar g t p NidBg k value) plan.now.groups).names }
{
    let Some(from) = link_at(plan, g, t, p, k) else {
        return Names::Neither;
    };
    let to = Id {
        country: from.country,
        number: value,
    };
    both_real(from, to)
}

// The one that setting an orientation has to do with.
fn names_of_orientation(plan: &Plan, g: Tag, t: u32, p: Tag, k: u32, value: u32) -> Names
    ensures names { Accepted (SetVar g t p QLinkorientation k value) plan.now.groups → names_held result ≡ (noted (SetVar g t p QLinkorientation k value) plan.now.groups).names }
    ensures few { are_two result ≡ false }
{
    let Some(link) = link_at(plan, g, t, p, k) else {
        return Names::Neither;
    };
    one_real(link)
}

// The identity of element `k` of a packet. The plan is sound.
fn link_at(plan: &Plan, g: Tag, t: u32, p: Tag, k: u32) -> Option<Id>
    ensures item { (y : Telegram) → telegram_at g t plan.now.groups ≡ Some y → result ≡ slice_get (links_at p y) k }
    ensures none { telegram_at g t plan.now.groups ≡ None → result ≡ None }
    ensures sound { IsSound plan.now.groups }
{
    let Some(telegram) = plan.telegram(g, t) else {
        return None;
    };
    let country = telegram.identity().country;
    let Some(packet) = telegram.packet(p) else {
        return None;
    };
    packet.elements(country).get(k as usize)
}

// The identity, if it is of a group.
fn one_real(id: Id) -> Names
    ensures names { names_held result ≡ filter is_real (id ∷ []) }
    ensures few { are_two result ≡ false }
{
    if id.number == NO_GROUP {
        return Names::Neither;
    }
    Names::One([id])
}

// Those of two that are of a group.
fn both_real(from: Id, to: Id) -> Names
    ensures { names_held result ≡ filter is_real (from ∷ to ∷ []) }
{
    if from.number == NO_GROUP {
        return one_real(to);
    }
    if to.number == NO_GROUP {
        return Names::One([from]);
    }
    Names::Both([from, to])
}
