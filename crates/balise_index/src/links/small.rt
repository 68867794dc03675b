//! A link place in eight bytes.

ghost use Rattle.std.specs.Prelude.{◌≡◌, ◌≤◌, ◌<◌, ◌^◌, ◌⊎◌, IfNone, IfSome};
ghost use Rattle.balise_index.specs.SmallPlace.{kind_of, narrow_place, wide_small};

use crate::link_place::LinkPlace;
use crate::links::narrow::{NarrowPlace, TagKind};

/// A place whose telegram is below 8, whose element is below 32, and whose packet has a number below 4,194,304. Each place
/// of a plan has such a telegram and element, and each packet is so, if it was read or put in by one of the first four
/// million edits.
#[derive(Clone, Copy)]
pub(crate) struct SmallPlace {
    pub(super) group: u32,
    // From the highest bit: the packet's number, the element, the telegram, and the kinds of the packet and of the group.
    pub(super) rest: u32,
}

impl SmallPlace {
    /// The small form of a place, if it has one.
    pub(super) fn of(place: NarrowPlace) -> Option<SmallPlace>
        ensures some { IfSome result (λ s. narrow_place s ≡ place) }
        ensures none { IfNone result ((2 ^ 22 ≤ place.packet) ⊎ (32 ≤ place.element) ⊎ (8 ≤ place.telegram)) }
    {
        if place.packet >= 4194304 || place.element >= 32 || place.telegram >= 8 {
            return None;
        }
        let spot = place.element as u32 * 8 + place.telegram as u32;
        let kinds = number_of(place.packet_kind) * 2 + number_of(place.group_kind);
        Some(SmallPlace {
            group: place.group,
            rest: place.packet * 1024 + spot * 4 + kinds,
        })
    }

    /// The place in twelve bytes.
    pub(super) fn narrow(self) -> NarrowPlace
        ensures { result ≡ narrow_place self }
    {
        NarrowPlace {
            group: self.group,
            packet: self.rest / 1024,
            group_kind: kind_of(self.rest % 2),
            packet_kind: kind_of(self.rest / 2 % 2),
            telegram: (self.rest / 4 % 8) as u8,
            element: (self.rest / 32 % 32) as u8,
        }
    }

    /// The place.
    pub(super) fn wide(self) -> LinkPlace
        ensures { result ≡ wide_small self }
    {
        self.narrow().wide()
    }
}

fn number_of(kind: TagKind) -> u32
    ensures small { result < 2 }
    ensures kind { kind_of result ≡ kind }
{
    match kind {
        TagKind::Base => 0,
        TagKind::Fresh => 1,
    }
}

fn kind_of(number: u32) -> TagKind
    ensures { result ≡ kind_of number }
{
    if number == 0 {
        TagKind::Base
    } else {
        TagKind::Fresh
    }
}
