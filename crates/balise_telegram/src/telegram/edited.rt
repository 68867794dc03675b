//! What a telegram keeps besides its bits once its packets were edited.

ghost use Rattle.std.specs.Prelude.{◌≡◌, ◌<◌, ◌+◌, ◌^◌, IfOk, IfSome, IsOkUnless, length, option_map, slice_get, None};
ghost use Rattle.std.specs.List.{position};
ghost use Rattle.balise_rules.specs.Tags.{same_tag};
ghost use Rattle.balise_rules.specs.Telegram.{TaggedFrom, Telegram};
ghost use Rattle.balise_telegram.specs.Shown.{IsOver, IsPlace, IsShown, StandsFor};
ghost use Rattle.balise_telegram.specs.declared.telegram.walking.Place.{Place};

use crate::PacketTag;
use crate::fault::TelegramFault;
use crate::telegram::walking::{Place, ends, head_at, walk};
use balise_layout::Bits;
use smallvec::SmallVec;
use std::alloc::Global;

/// How many tags stand beside the bits, and take no memory of their own: few telegrams have more packets.
const FEW: usize = 4;

/// The tags of a telegram's packets in order, its ground, which are the bits that it shows where no packet stands, and
/// how many bits header, packets and packet 255 take.
#[derive(Drop)]
pub(crate) struct Edited {
    pub(crate) tags: SmallVec<PacketTag, FEW>,
    pub(crate) ground: Bits,
    pub(crate) used: usize,
}

impl Edited {
    /// The place of a tag.
    pub(crate) fn place_of(&self, tag: PacketTag) -> Option<usize>
        ensures place { result ≡ position (λ t. same_tag tag t) self.now.tags.items }
        ensures small { IfSome result (λ i. i + 1 < 2 ^ 64) }
    {
        self.tags.iter().position(|t| tag == *t)
    }

    /// The tag at a place.
    pub(crate) fn tag_at(&self, i: usize) -> Option<PacketTag>
        ensures { result ≡ slice_get self.now.tags.items i }
    {
        match self.tags.get(i) {
            Some(tag) => Some(*tag),
            None => None,
        }
    }

    /// A copy.
    pub(crate) fn copy(&self, alloc: Global) -> Result<Edited, TelegramFault>
        ensures ok { IfOk result (λ e. (e.tags.items ≡ self.now.tags.items) × (e.ground ≡ self.now.ground) × (e.used ≡ self.now.used)) }
        ensures fault { IsOkUnless result TelegramFault.OutOfMemory }
    {
        let tags = SmallVec::from_slice(alloc, self.tags.as_slice())?;
        let ground = self.ground.copy()?;
        let used = self.used;
        Ok(Edited { tags, ground, used })
    }
}

/// The place of a tag among packets as they were read.
pub(crate) fn place_read(bits: &Bits, tag: PacketTag) -> Option<Place>
    requires { (y : Telegram) × IsShown bits.now y }
    ensures place { (y : Telegram) → IsShown bits.now y → TaggedFrom 0 y.packets → option_map (λ (p : Place). p.index) result ≡ position (λ q. same_tag tag q.0) y.packets }
    ensures stands { (y : Telegram) → IsShown bits.now y → IfSome result (λ p. IsPlace y p × (p.index < length y.packets)) }
{
    let PacketTag::Base(number) = tag else {
        return None;
    };
    let place = walk(bits, number as usize);
    if place.index < number as usize {
        return None;
    }
    let Some(_head) = head_at(bits, place) else {
        return None;
    };
    Some(place)
}

/// The tag at a place of packets as they were read.
pub(crate) fn tag_read(bits: &Bits, place: Place) -> Option<PacketTag>
    requires { (y : Telegram) × IsShown bits.now y × IsPlace y place }
    ensures { (y : Telegram) → IsShown bits.now y → IsPlace y place → TaggedFrom 0 y.packets → result ≡ option_map (λ q. q.0) (slice_get y.packets place.index) }
{
    let Some(_head) = head_at(bits, place) else {
        return None;
    };
    Some(tag_there(bits, place))
}

/// The tag of the packet that stands at a place of packets as they were read.
#[inline(always)]
pub(crate) fn tag_there(bits: &Bits, place: Place) -> PacketTag
    requires { (y : Telegram) × IsShown bits.now y × IsPlace y place × (place.index < length y.packets) }
    ensures { (y : Telegram) → IsShown bits.now y → IsPlace y place → place.index < length y.packets → TaggedFrom 0 y.packets → Some result ≡ option_map (λ q. q.0) (slice_get y.packets place.index) }
{
    // The length bounds the number of packets, so a place fits a `u32`.
    let _len = bits.len();
    PacketTag::Base(place.index as u32)
}

/// Tags and ground of bits as they are read.
#[inline(never)]
pub(crate) fn edited_read(bits: &Bits) -> Result<Edited, TelegramFault>
    requires { (y : Telegram) × StandsFor bits.now None y }
    ensures ok { IfOk result (λ e. (y : Telegram) → StandsFor bits.now None y → IsOver e y) }
    ensures fault { IsOkUnless result TelegramFault.OutOfMemory }
{
    let alloc = bits.allocator();
    let end = ends(bits);
    let mut tags = SmallVec::with_capacity(alloc, end.index + 1)?;
    for i in 0..end.index {
        tags.push(PacketTag::Base(i as u32))?;
    }
    let mut ground = bits.copy()?;
    let used = end.at + 8;
    ground.put_ones(0, used);
    Ok(Edited { tags, ground, used })
}
