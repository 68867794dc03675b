//! A telegram: the bits that it shows and, once its packets were edited, their tags and its ground.

mod changes;
mod contents;
mod edited;
mod iter;
mod names;
mod packets;
mod reading;
mod walking;

ghost use Rattle.std.specs.Prelude.{◌≡◌, ◌≤◌, ◌<◌, ◌^◌, ◌+◌, ℕ, IfErr, IfNone, IfOk, IfSome, IsOkUnless, OnErr, OnOk, length, option_map, slice_get, Option};
ghost use Rattle.std.specs.List.{position};
ghost use Rattle.balise_rules.specs.Digits.{hex_of};
ghost use Rattle.balise_rules.specs.Tagged.{find, Distinct};
ghost use Rattle.balise_rules.specs.Tags.{same_tag};
ghost use Rattle.balise_rules.specs.Packet.{field_of, value, Packet};
ghost use Rattle.balise_rules.specs.declared.variable.Var.TheVariants.{NPig, NTotal};
ghost use Rattle.balise_rules.specs.Plan.{identity_in};
ghost use Rattle.balise_rules.specs.Telegram.{shown, used, version_of, IsLength};
ghost use Rattle.balise_rules.specs.declared.tag.Tag.{Tag};
ghost use Rattle.balise_telegram.specs.HeaderFields.{fields_in};
ghost use Rattle.balise_telegram.specs.Packed.{packet_place, place_from};
ghost use Rattle.balise_telegram.specs.Shown.{IsPlace, IsShown};
ghost use Rattle.balise_telegram.specs.declared.telegram.walking.Place.{Place};

use crate::PacketTag;
use crate::fault::TelegramFault;
use crate::header::{Header, head_place};
use crate::telegram::contents::{Contents, EditedBits};
use crate::telegram::edited::{place_read, tag_read, tag_there};
use crate::telegram::walking::{Place, after, ends, walk};
use balise_layout::{Bits, PacketRef};
use balise_rules::{Id, Var};
pub use iter::Packets;
pub use names::TelegramNames;
use std::marker::Model;

/// A telegram of 210 or 830 bits. It is held as the bits that it shows. Once a packet was put in, taken out or moved,
/// the tags of its packets stand beside them, and its padding as it was read.
#[derive(Drop)]
pub struct Telegram {
    contents: Contents,
}

impl Model for Telegram {
    ghost use Rattle.balise_rules.specs.Telegram as rules;
    ghost use Rattle.balise_telegram.specs.Shown.{kept_of, packed_of, seen, StandsFor};

    ghost Value = { rules.Telegram };

    ghost view = { λ t. seen (packed_of t.contents) (kept_of t.contents) };

    ghost invariant = { λ t. StandsFor (packed_of t.contents) (kept_of t.contents) (seen (packed_of t.contents) (kept_of t.contents)) };
}

impl Telegram {
    /// The bits that it shows.
    pub fn bits(&self) -> &Bits
        ensures { result.now ≡ shown self.now }
    {
        self.packed()
    }

    /// A copy of the bits that it shows.
    pub fn shown(&self) -> Result<Bits, TelegramFault>
        ensures ok { IfOk result (λ b. b ≡ shown self.now) }
        ensures fault { IsOkUnless result TelegramFault.OutOfMemory }
    {
        Ok(self.packed().copy()?)
    }

    /// Writes the digits of its bits into a buffer, in place of all that it holds. Out of memory, that stays.
    pub fn hex_into(&self, out: &mut Vec<u8>) -> Result<(), TelegramFault>
        ensures ok { OnOk result (out.new.items ≡ hex_of (shown self.now)) }
        ensures err { OnErr result (out.new.items ≡ out.old.items) }
        ensures fault { IsOkUnless result TelegramFault.OutOfMemory }
    {
        Ok(self.packed().hex_into(out)?)
    }

    /// How many bits it has: 210 or 830.
    pub fn width(&self) -> usize
        ensures width { result ≡ length self.now.padding }
        ensures due { IsLength result }
        ensures fits { used self.now.packets ≤ length self.now.padding }
    {
        self.packed().len()
    }

    /// How many bits header, packets and packet 255 take: 58 and the packets' widths.
    pub fn used(&self) -> usize
        ensures { result ≡ used self.now.packets }
    {
        self.end().at + 8
    }

    /// M_VERSION, of 7 bits: the first three are the X of version X.Y, the last four its Y.
    pub fn version(&self) -> u32
        ensures { result ≡ version_of self.now }
    {
        Header::version_in(self.packed())
    }

    /// The identity of its group, as the header has it.
    #[inline(always)]
    pub fn identity(&self) -> Id
        ensures { result ≡ identity_in self.now }
    {
        Header::identity_in(self.packed())
    }

    /// Its place in its group, N_PIG, and the number of balises there less one, N_TOTAL, of 3 bits each.
    pub fn place_in_group(&self) -> (u32, u32)
        ensures pig { result.0 ≡ value NPig 0 self.now.head }
        ensures total { result.1 ≡ value NTotal 0 self.now.head }
    {
        Header::place_in(self.packed())
    }

    /// The ten numbers of its header.
    pub fn header(&self) -> Header
        ensures { fields_in result ≡ self.now.head }
    {
        Header::read(self.packed())
    }

    /// The value of a variable of the header, where a header has it.
    pub fn head(&self, var: Var) -> Option<u32>
        ensures { result ≡ field_of var 0 self.now.head }
    {
        let bits = self.packed();
        let Some(at) = head_place(var) else {
            return None;
        };
        Some(bits.number(at, var.width()))
    }

    /// How many packets it has. No tag stands twice among them.
    pub fn count(&self) -> usize
        ensures count { result ≡ length self.now.packets }
        ensures tags { Distinct same_tag self.now.packets }
    {
        // The proof goes over the bits that it shows.
        let _packed = self.packed();
        self.end().index
    }

    /// The packet with this tag, lent.
    pub fn packet(&self, tag: PacketTag) -> Option<PacketRef<'_>>
        ensures { result ≡ find same_tag tag self.now.packets }
    {
        let Some(place) = self.find(tag) else {
            return None;
        };
        Some(self.lent(place))
    }

    /// The packet at a place in the order, from 0, lent, with its tag. A loop over all packets takes `packets`, which
    /// doesn't begin at the first packet each time.
    #[inline(always)]
    pub fn at(&self, i: usize) -> Option<(PacketTag, PacketRef<'_>)>
        ensures { result ≡ slice_get self.now.packets i }
    {
        let place = walk(self.packed(), i);
        if place.index < i {
            return None;
        }
        let Some(tag) = self.tag_at(place) else {
            return None;
        };
        Some((tag, self.lent(place)))
    }

    /// A copy, with the same tags and the same padding.
    pub fn copy(&self) -> Result<Telegram, TelegramFault>
        ensures ok { IfOk result (λ telegram. telegram ≡ self.now) }
        ensures fault { IsOkUnless result TelegramFault.OutOfMemory }
    {
        let contents = self.contents.copy()?;
        Ok(Telegram { contents })
    }

    // The bits that it shows, for proofs that go over them.
    #[inline(always)]
    fn packed(&self) -> &Bits
        ensures { IsShown result.now self.now }
    {
        self.contents.packed()
    }

    // The place of the packet with this tag.
    #[inline]
    fn find(&self, tag: PacketTag) -> Option<Place>
        ensures place { option_map (λ (p : Place). p.index) result ≡ position (λ q. same_tag tag q.0) self.now.packets }
        ensures stands { IfSome result (λ p. IsPlace self.now p × (p.index < length self.now.packets)) }
    {
        match &self.contents {
            Contents::Edited(edited) => {
                let Some(i) = edited.kept.place_of(tag) else {
                    return None;
                };
                Some(walk(&edited.packed, i))
            }
            Contents::Read(bits) => place_read(bits, tag),
        }
    }

    // The place after the last packet.
    fn end(&self) -> Place
        ensures index { result.index ≡ length self.now.packets }
        ensures at { result.at + 8 ≡ used self.now.packets }
        ensures small { result.at + 8 < 2 ^ 64 }
    {
        match &self.contents {
            Contents::Edited(edited) => Place {
                index: edited.kept.tags.len(),
                at: edited.kept.used - 8,
            },
            Contents::Read(bits) => ends(bits),
        }
    }

    // The tag of the packet at a place, where one stands there.
    #[inline(always)]
    fn tag_at(&self, place: Place) -> Option<PacketTag>
        requires { IsPlace self.now place }
        ensures { result ≡ option_map (λ q. q.0) (slice_get self.now.packets place.index) }
    {
        match &self.contents {
            Contents::Edited(edited) => edited.kept.tag_at(place.index),
            Contents::Read(bits) => tag_read(bits, place),
        }
    }

    // The tag of the packet that stands at a place.
    #[inline(always)]
    fn tag_there(&self, place: Place) -> Option<PacketTag>
        requires place { IsPlace self.now place }
        requires stands { place.index < length self.now.packets }
        ensures { result ≡ option_map (λ q. q.0) (slice_get self.now.packets place.index) }
    {
        match &self.contents {
            Contents::Edited(edited) => edited.kept.tag_at(place.index),
            Contents::Read(bits) => Some(tag_there(bits, place)),
        }
    }

    // The packet at a place, lent. Inlined, so that nothing is read for one that isn't looked at.
    #[inline(always)]
    fn lent(&self, place: Place) -> PacketRef<'_>
        requires place { IsPlace self.now place }
        requires stands { place.index < length self.now.packets }
        ensures { (x : Tag × Packet) → slice_get self.now.packets place.index ≡ Some x → result ≡ x.1 }
    {
        let bits = self.packed();
        PacketRef::of_head(bits, place.at, self.version(), bits.number(place.at, 23))
    }

    // The place after the packet at a place.
    #[inline]
    fn after(&self, place: Place) -> Place
        requires place { IsPlace self.now place }
        requires stands { place.index < length self.now.packets }
        ensures index { result.index ≡ place.index + 1 }
        ensures place { IsPlace self.now result }
    {
        after(self.packed(), place)
    }

    // The place after the packet at a place, if one stands there.
    #[inline]
    fn next_place(&self, place: Place) -> Option<Place>
        requires { IsPlace self.now place }
        ensures next { IfSome result (λ p. (p.index ≡ place.index + 1) × IsPlace self.now p × (place.index < length self.now.packets)) }
        ensures none { IfNone result (length self.now.packets ≤ place.index) }
        ensures tags { Distinct same_tag self.now.packets }
    {
        let bits = self.packed();
        if bits.number(place.at, 8) == 255 {
            return None;
        }
        Some(after(bits, place))
    }

    // The place after the packet that is lent from a place.
    #[inline]
    fn after_lent(&self, place: Place, packet: &PacketRef<'_>) -> Place
        requires place { IsPlace self.now place }
        requires stands { place.index < length self.now.packets }
        requires lent { (x : Tag × Packet) → slice_get self.now.packets place.index ≡ Some x → packet.now ≡ x.1 }
        ensures index { result.index ≡ place.index + 1 }
        ensures place { IsPlace self.now result }
    {
        // The bits that it shows bound the place below.
        let _packed = self.packed();
        Place {
            index: place.index + 1,
            at: place.at + packet.width(),
        }
    }

    // Where the packet with this tag stands among the bits.
    fn bits_of(&self, tag: PacketTag) -> Option<usize>
        ensures place { result ≡ packet_place 50 tag self.now.packets }
        ensures tags { Distinct same_tag self.now.packets }
    {
        // That the tags are distinct is known of the bits that it shows.
        let _packed = self.packed();
        let Some(place) = self.find(tag) else {
            return None;
        };
        Some(place.at)
    }

    // Where an occurrence of a variable of the packet that stands there stands among the bits.
    fn place_in(&self, packet: usize, var: Var, k: u32) -> Option<usize>
        requires { (tag : Tag) × (packet_place 50 tag self.now.packets ≡ Some packet) }
        ensures { (tag : Tag) → packet_place 50 tag self.now.packets ≡ Some packet → result ≡ place_from 50 tag (var, k) self.now.packets }
    {
        let bits = self.packed();
        match PacketRef::new(bits, packet, self.version()).place_of(var, k) {
            Some(before) => Some(packet + before),
            None => None,
        }
    }
}
