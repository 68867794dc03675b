//! A link place in twelve bytes.

ghost use Rattle.std.specs.Prelude.{◌≡◌, ◌≤◌, ◌^◌, ◌⊎◌, IfNone, IfSome};
ghost use Rattle.balise_index.specs.NarrowPlace.{wide_place, wide_tag};

use crate::link_place::LinkPlace;
use balise_rules::Tag;

/// A place whose telegram and element fit 8 bits each. The standard has at most 8 telegrams in a group and 32 elements in a
/// packet, so each place of a plan does. A tag is its kind and its number, so that the four small fields stand together.
#[derive(Clone, Copy)]
pub(crate) struct NarrowPlace {
    pub(super) group: u32,
    pub(super) packet: u32,
    pub(super) group_kind: TagKind,
    pub(super) packet_kind: TagKind,
    pub(super) telegram: u8,
    pub(super) element: u8,
}

/// Which kind a tag is.
#[derive(Clone, Copy)]
pub(crate) enum TagKind {
    Base,
    Fresh,
}

impl NarrowPlace {
    /// The narrow form of a place; `None` where its telegram or its element is above 255.
    pub(super) fn of(place: LinkPlace) -> Option<NarrowPlace>
        ensures some { IfSome result (λ n. wide_place n ≡ place) }
        ensures none { IfNone result ((2 ^ 8 ≤ place.telegram) ⊎ (2 ^ 8 ≤ place.element)) }
    {
        let Ok(telegram) = u8::try_from(place.telegram) else {
            return None;
        };
        let Ok(element) = u8::try_from(place.element) else {
            return None;
        };
        let (group_kind, group) = kind_and_number(place.group);
        let (packet_kind, packet) = kind_and_number(place.packet);
        Some(NarrowPlace {
            group,
            packet,
            group_kind,
            packet_kind,
            telegram,
            element,
        })
    }

    /// The place.
    pub(super) fn wide(self) -> LinkPlace
        ensures { result ≡ wide_place self }
    {
        LinkPlace {
            group: tag_of(self.group_kind, self.group),
            telegram: self.telegram as u32,
            packet: tag_of(self.packet_kind, self.packet),
            element: self.element as u32,
        }
    }
}

fn kind_and_number(tag: Tag) -> (TagKind, u32)
    ensures { wide_tag result.0 result.1 ≡ tag }
{
    match tag {
        Tag::Base(number) => (TagKind::Base, number),
        Tag::Fresh(number) => (TagKind::Fresh, number),
    }
}

fn tag_of(kind: TagKind, number: u32) -> Tag
    ensures { result ≡ wide_tag kind number }
{
    match kind {
        TagKind::Base => Tag::Base(number),
        TagKind::Fresh => Tag::Fresh(number),
    }
}
