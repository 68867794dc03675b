//! The links of one packet in the index of names.

ghost use Rattle.std.specs.Prelude.{◌≡◌, ◌≤◌, IsOk, OnOk, OnErr, false, length};
ghost use Rattle.balise_rules.specs.Names.{links_of};
ghost use Rattle.balise_plan.specs.GroupLinks.{links_from, KeepsOthers, SetsAll};
ghost use Rattle.balise_index.specs.NameIndex.{names_of, tags_of, Sets};

use crate::packet_place::PacketPlace;
use balise_index::{LinkPlace, NameIndex};
use balise_rules::{Id, NO_GROUP};
use balise_telegram::PacketRef;
use std::alloc::{AllocError, Global};

/// Notes the links of a packet in a telegram of this country, or with `noted` false forgets them, which takes no memory.
/// Where memory runs out, some of them may be noted.
pub(crate) fn set_packet(
    alloc: Global,
    index: &mut NameIndex,
    place: PacketPlace,
    country: u32,
    packet: &PacketRef,
    noted: bool,
) -> Result<(), AllocError>
    ensures set { OnOk result (SetsAll noted (links_from place.group place.telegram place.packet 0 (links_of country packet.now)) (names_of index.old) (names_of index.new)) }
    ensures others { OnErr result (KeepsOthers (links_from place.group place.telegram place.packet 0 (links_of country packet.now)) (names_of index.old) (names_of index.new)) }
    ensures never { noted ≡ false → IsOk result }
    ensures tags { tags_of index.new ≡ tags_of index.old }
{
    if !packet.has_elements() {
        return Ok(());
    }
    set_linking(alloc, index, place, country, packet, noted)
}

/// Forgets the links of a packet in a telegram of this country. Takes no memory.
pub(crate) fn forget_packet(
    alloc: Global,
    index: &mut NameIndex,
    place: PacketPlace,
    country: u32,
    packet: &PacketRef,
)
    ensures forgotten { SetsAll false (links_from place.group place.telegram place.packet 0 (links_of country packet.now)) (names_of index.old) (names_of index.new) }
    ensures tags { tags_of index.new ≡ tags_of index.old }
{
    // Forgetting takes no memory, so it doesn't fail.
    let _ = set_packet(alloc, index, place, country, packet, false);
}

/// Notes or forgets the links of a packet that has elements. Out of line, so that a packet without any takes no stack for
/// them.
#[inline(never)]
pub(crate) fn set_linking(
    alloc: Global,
    index: &mut NameIndex,
    place: PacketPlace,
    country: u32,
    packet: &PacketRef,
    noted: bool,
) -> Result<(), AllocError>
    ensures set { OnOk result (SetsAll noted (links_from place.group place.telegram place.packet 0 (links_of country packet.now)) (names_of index.old) (names_of index.new)) }
    ensures others { OnErr result (KeepsOthers (links_from place.group place.telegram place.packet 0 (links_of country packet.now)) (names_of index.old) (names_of index.new)) }
    ensures never { noted ≡ false → IsOk result }
    ensures tags { tags_of index.new ≡ tags_of index.old }
{
    match &packet.few_elements(country) {
        Some(few) => set_elements(alloc, index, place, few.as_slice(), noted),
        None => set_many(alloc, index, place, country, packet, noted),
    }
}

// Notes or forgets the links of a packet of any number of elements. Out of line, since `Elements` takes much of the stack.
#[inline(never)]
fn set_many(
    alloc: Global,
    index: &mut NameIndex,
    place: PacketPlace,
    country: u32,
    packet: &PacketRef,
    noted: bool,
) -> Result<(), AllocError>
    ensures set { OnOk result (SetsAll noted (links_from place.group place.telegram place.packet 0 (links_of country packet.now)) (names_of index.old) (names_of index.new)) }
    ensures others { OnErr result (KeepsOthers (links_from place.group place.telegram place.packet 0 (links_of country packet.now)) (names_of index.old) (names_of index.new)) }
    ensures never { noted ≡ false → IsOk result }
    ensures tags { tags_of index.new ≡ tags_of index.old }
{
    let elements = packet.elements(country);
    set_elements(alloc, index, place, elements.as_slice(), noted)
}

/// Notes or forgets the links of a packet that names these identities.
#[inline(always)]
pub(crate) fn set_elements(
    alloc: Global,
    index: &mut NameIndex,
    place: PacketPlace,
    identities: &[Id],
    noted: bool,
) -> Result<(), AllocError>
    requires { length identities.now ≤ 32 }
    ensures set { OnOk result (SetsAll noted (links_from place.group place.telegram place.packet 0 identities.now) (names_of index.old) (names_of index.new)) }
    ensures others { OnErr result (KeepsOthers (links_from place.group place.telegram place.packet 0 identities.now) (names_of index.old) (names_of index.new)) }
    ensures never { noted ≡ false → IsOk result }
    ensures tags { tags_of index.new ≡ tags_of index.old }
{
    for k in 0..identities.len() {
        let id = identities[k];
        if id.number == NO_GROUP {
            continue;
        }
        set_name(alloc, index, id, place.element(k as u32), noted)?;
    }
    Ok(())
}

// Notes that a place names an identity, or forgets it.
#[inline(always)]
fn set_name(
    alloc: Global,
    index: &mut NameIndex,
    id: Id,
    place: LinkPlace,
    noted: bool,
) -> Result<(), AllocError>
    ensures set { OnOk result (Sets (names_of index.old) (names_of index.new) id place noted) }
    ensures unchanged { OnErr result (names_of index.new ≡ names_of index.old) }
    ensures never { noted ≡ false → IsOk result }
    ensures tags { tags_of index.new ≡ tags_of index.old }
{
    if noted {
        return index.add_name(alloc, id, place);
    }
    index.forget_name(id, place);
    Ok(())
}
