//! All links of a group in the index of names.

ghost use Rattle.std.specs.Prelude.{◌≡◌, IsOk, OnOk, OnErr, false, true};
ghost use Rattle.balise_rules.specs.Plan.{country_of};
ghost use Rattle.balise_plan.specs.GroupLinks.{links_in_group, links_in_packets, KeepsOthers, SetsAll};
ghost use Rattle.balise_plan.specs.GroupNames.{AreLinks};
ghost use Rattle.balise_index.specs.NameIndex.{names_of, tags_of};

use crate::group::Group;
use crate::group_names::GroupNames;
use crate::links::packet::{set_elements, set_linking};
use crate::packet_place::PacketPlace;
use balise_index::NameIndex;
use balise_rules::Tag;
use balise_telegram::Telegram;
use std::alloc::{AllocError, Global};

/// Notes the links of a group, by what it names. Where memory runs out, some of them may be noted.
#[inline(always)]
pub(crate) fn note_group(
    alloc: Global,
    index: &mut NameIndex,
    g: Tag,
    group: &Group,
    names: &GroupNames,
) -> Result<(), AllocError>
    requires { AreLinks names.now group.now }
    ensures set { OnOk result (SetsAll true (links_in_group g group.now) (names_of index.old) (names_of index.new)) }
    ensures others { OnErr result (KeepsOthers (links_in_group g group.now) (names_of index.old) (names_of index.new)) }
    ensures tags { tags_of index.new ≡ tags_of index.old }
{
    match names {
        GroupNames::Nothing => Ok(()),
        GroupNames::One(telegram, packet, few) => {
            let place = PacketPlace {
                group: g,
                telegram: *telegram,
                packet: Tag::Base(*packet),
            };
            set_elements(alloc, index, place, few.as_slice(), true)
        }
        GroupNames::Many => set_group(alloc, index, g, group, true),
    }
}

// Notes the links of a group, packet by packet, or with `noted` false forgets them, which takes no memory. Where memory
// runs out, some of them may be noted.
fn set_group(
    alloc: Global,
    index: &mut NameIndex,
    g: Tag,
    group: &Group,
    noted: bool,
) -> Result<(), AllocError>
    ensures set { OnOk result (SetsAll noted (links_in_group g group.now) (names_of index.old) (names_of index.new)) }
    ensures others { OnErr result (KeepsOthers (links_in_group g group.now) (names_of index.old) (names_of index.new)) }
    ensures never { noted ≡ false → IsOk result }
    ensures tags { tags_of index.new ≡ tags_of index.old }
{
    for i in 0..group.count() {
        let Some((t, telegram)) = group.at(i) else {
            return Ok(());
        };
        set_telegram(alloc, index, g, t, telegram, noted)?;
    }
    Ok(())
}

/// Forgets the links of a group. Takes no memory.
pub(crate) fn forget_group(alloc: Global, index: &mut NameIndex, g: Tag, group: &Group)
    ensures forgotten { SetsAll false (links_in_group g group.now) (names_of index.old) (names_of index.new) }
    ensures tags { tags_of index.new ≡ tags_of index.old }
{
    // Forgetting takes no memory, so it doesn't fail.
    let _ = set_group(alloc, index, g, group, false);
}

fn set_telegram(
    alloc: Global,
    index: &mut NameIndex,
    g: Tag,
    t: u32,
    telegram: &Telegram,
    noted: bool,
) -> Result<(), AllocError>
    ensures set { OnOk result (SetsAll noted (links_in_packets g t (country_of telegram.now) telegram.now.packets) (names_of index.old) (names_of index.new)) }
    ensures others { OnErr result (KeepsOthers (links_in_packets g t (country_of telegram.now) telegram.now.packets) (names_of index.old) (names_of index.new)) }
    ensures never { noted ≡ false → IsOk result }
    ensures tags { tags_of index.new ≡ tags_of index.old }
{
    let country = telegram.identity().country;
    let mut packets = telegram.packets();
    'packets: loop {
        let Some((p, packet)) = packets.next_linking() else {
            return Ok(());
        };
        let place = PacketPlace {
            group: g,
            telegram: t,
            packet: p,
        };
        set_linking(alloc, index, place, country, &packet, noted)?;
    }
}
