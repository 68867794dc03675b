//! Packets taken out of a telegram, put in and moved. The bits after them are shifted.

ghost use Rattle.std.specs.Prelude.{◌≡◌, ◌≤◌, ◌<◌, IfSome, IsOk, OnErr, OnOk, IsOkUnless, is_some, option_map, length, Option};
ghost use Rattle.std.specs.List.{insert, remove};
ghost use Rattle.balise_rules.specs.Back.{with_packets};
ghost use Rattle.balise_rules.specs.Packet.{width, IsSpelt, Packet};
ghost use Rattle.balise_rules.specs.Tagged.{find, put, put_before, stands};
ghost use Rattle.balise_rules.specs.Tags.{same_tag};
ghost use Rattle.balise_rules.specs.Telegram.{room, shown, used, version_of, Telegram};
ghost use Rattle.balise_rules.specs.declared.tag.Tag.{Tag};
ghost use Rattle.balise_telegram.specs.Changes.{InsertsOrWants, OrWants};
ghost use Rattle.balise_telegram.specs.Moving.{inserted, moved_to, place_after, place_before, Shifts, ShiftsBefore, TakesOut};
ghost use Rattle.balise_telegram.specs.Shown.{index_of, Gap, Goes, IsOver, IsPlace, IsShown, Spot};
ghost use Rattle.balise_telegram.specs.declared.telegram.walking.Place.{Place};
ghost use Rattle.smallvec.specs.SmallVec.{HasRoomFor};

use crate::PacketTag;
use crate::fault::TelegramFault;
use crate::telegram::Telegram;
use crate::telegram::contents::{Contents, EditedBits};
use crate::telegram::edited::Edited;
use crate::telegram::walking::{Place, first};
use balise_layout::{Bits, Packet};

impl Telegram {
    /// How many bits of padding it shows, which is the room for further packets.
    pub fn room(&self) -> usize
        ensures room { result ≡ room self.now }
        ensures fits { used self.now.packets ≤ length self.now.padding }
    {
        self.packed().len() - self.used()
    }

    /// Takes the packet with this tag out, and answers it and the tag of its next neighbour.
    ///
    /// Refused, and then all stays: `NoSuchPacket`. `OutOfMemory` may stand in place of any answer.
    pub fn take(&mut self, tag: PacketTag) -> Result<(Packet, Option<PacketTag>), TelegramFault>
        ensures { OrWants (TakesOut tag) self.old result self.new }
    {
        let Some(place) = self.find(tag) else {
            return Err(TelegramFault::NoSuchPacket);
        };
        let lent = self.lent(place);
        let after = self.after_lent(place, &lent);
        let next = self.tag_at(after);
        let packet = lent.to_packet()?;
        let used = self.end().at + 8;
        let mut edited = self.contents.take_edited()?;
        let EditedBits { packed, kept } = &mut *edited;
        cut_out(packed, kept, place, after.at - place.at, used);
        self.contents = Contents::Edited(edited);
        Ok((packet, next))
    }

    /// Puts a packet in directly after the anchor, or first where there is none.
    ///
    /// Refused in this order, and then all stays and the packet is returned: `NoSuchPacket` where the anchor
    /// doesn't stand, `NoRoom` where the packet is wider than the room. `OutOfMemory` may stand in place of any answer.
    pub fn insert_after(
        &mut self,
        anchor: Option<PacketTag>,
        tag: PacketTag,
        packet: Packet,
    ) -> Result<(), (TelegramFault, Packet)>
        requires new { find same_tag tag self.old.packets ≡ None }
        requires spelt { IsSpelt (version_of self.old) packet }
        ensures { InsertsOrWants (stands same_tag anchor self.old.packets) packet (put same_tag anchor (tag, packet) self.old.packets) self.old result self.new }
    {
        let place = self.place_after(anchor);
        self.put_in(place, tag, packet)
    }

    /// Puts a packet in directly before the neighbour, or last where there is none.
    ///
    /// Refused in this order, and then all stays and the packet is returned: `NoSuchPacket` where the neighbour
    /// doesn't stand, `NoRoom` where the packet is wider than the room. `OutOfMemory` may stand in place of any answer.
    pub fn put_before(
        &mut self,
        next: Option<PacketTag>,
        tag: PacketTag,
        packet: Packet,
    ) -> Result<(), (TelegramFault, Packet)>
        requires new { find same_tag tag self.old.packets ≡ None }
        requires spelt { IsSpelt (version_of self.old) packet }
        ensures { InsertsOrWants (stands same_tag next self.old.packets) packet (put_before same_tag next (tag, packet) self.old.packets) self.old result self.new }
    {
        let place = self.place_before(next);
        self.put_in(place, tag, packet)
    }

    /// Moves a packet directly after the anchor, or to the first place. Returns the tag of its old next neighbour.
    ///
    /// Refused in this order, and then all stays: `NoSuchPacket` where it or the anchor doesn't stand, `SamePlace`
    /// where it stands there or is the anchor. `OutOfMemory` may stand in place of any answer.
    pub fn shift_after(
        &mut self,
        tag: PacketTag,
        anchor: Option<PacketTag>,
    ) -> Result<Option<PacketTag>, TelegramFault>
        ensures { OrWants (Shifts tag anchor) self.old result self.new }
    {
        let to = self.place_after(anchor);
        self.shift_to(tag, to)
    }

    /// Moves a packet directly before the neighbour, or to the last place. Returns the tag of its old next neighbour.
    ///
    /// Refused in this order, and then all stays: `NoSuchPacket` where it or the neighbour doesn't stand, `SamePlace`
    /// where it stands there or is the neighbour. `OutOfMemory` may stand in place of any answer.
    pub fn shift_before(
        &mut self,
        tag: PacketTag,
        next: Option<PacketTag>,
    ) -> Result<Option<PacketTag>, TelegramFault>
        ensures { OrWants (ShiftsBefore tag next) self.old result self.new }
    {
        let to = self.place_before(next);
        self.shift_to(tag, to)
    }

    // Moves a packet to a place, where there is one. The place is as it is before the packet goes.
    fn shift_to(
        &mut self,
        tag: PacketTag,
        place: Option<Place>,
    ) -> Result<Option<PacketTag>, TelegramFault>
        requires within { IfSome place (λ p. IsPlace self.old p) }
        ensures after { (a : Option Tag) → index_of place ≡ place_after a self.old.packets → OrWants (Shifts tag a) self.old result self.new }
        ensures before { (n : Option Tag) → index_of place ≡ place_before n self.old.packets → OrWants (ShiftsBefore tag n) self.old result self.new }
    {
        let Some(from) = self.find(tag) else {
            return Err(TelegramFault::NoSuchPacket);
        };
        let Some(to) = place else {
            return Err(TelegramFault::NoSuchPacket);
        };
        if to.index == from.index || to.index == from.index + 1 {
            return Err(TelegramFault::SamePlace);
        }
        let after = self.after(from);
        let next = self.tag_at(after);
        let packet = self.lent(from).to_packet()?;
        let used = self.end().at + 8;
        let mut edited = self.contents.take_edited()?;
        let EditedBits { packed, kept } = &mut *edited;
        move_between(packed, kept, from, after, to, used, tag, &packet);
        self.contents = Contents::Edited(edited);
        Ok(next)
    }

    // Puts a packet in at a place, where there is one.
    fn put_in(
        &mut self,
        place: Option<Place>,
        tag: PacketTag,
        packet: Packet,
    ) -> Result<(), (TelegramFault, Packet)>
        requires new { find same_tag tag self.old.packets ≡ None }
        requires spelt { IsSpelt (version_of self.old) packet }
        requires within { IfSome place (λ p. IsPlace self.old p) }
        ensures { InsertsOrWants (is_some (index_of place)) packet (inserted (index_of place) (tag, packet) self.old.packets) self.old result self.new }
    {
        let Some(place) = place else {
            return Err((TelegramFault::NoSuchPacket, packet));
        };
        let used = self.end().at + 8;
        if self.packed().len() - used < packet.width() {
            return Err((TelegramFault::NoRoom, packet));
        }
        let mut edited = match self.contents.take_edited() {
            Ok(edited) => edited,
            Err(fault) => return Err((fault, packet)),
        };
        let EditedBits { packed, kept } = &mut *edited;
        let done = put_between(packed, kept, place, used, tag, &packet);
        self.contents = Contents::Edited(edited);
        match done {
            Ok(()) => Ok(()),
            Err(fault) => Err((fault, packet)),
        }
    }

    // The place directly after the anchor, or the first.
    fn place_after(&self, anchor: Option<PacketTag>) -> Option<Place>
        ensures place { index_of result ≡ place_after anchor self.now.packets }
        ensures there { is_some (index_of result) ≡ stands same_tag anchor self.now.packets }
        ensures within { IfSome result (λ p. IsPlace self.now p) }
        ensures put { (z : Tag × Packet) → inserted (index_of result) z self.now.packets ≡ put same_tag anchor z self.now.packets }
    {
        let Some(tag) = anchor else {
            return Some(first());
        };
        match self.find(tag) {
            Some(place) => Some(self.after(place)),
            None => None,
        }
    }
}

impl Telegram {
    // The place directly before the neighbour, or the last.
    fn place_before(&self, next: Option<PacketTag>) -> Option<Place>
        ensures place { index_of result ≡ place_before next self.now.packets }
        ensures there { is_some (index_of result) ≡ stands same_tag next self.now.packets }
        ensures within { IfSome result (λ p. IsPlace self.now p) }
        ensures put { (z : Tag × Packet) → inserted (index_of result) z self.now.packets ≡ put_before same_tag next z self.now.packets }
    {
        match next {
            Some(tag) => self.find(tag),
            None => Some(self.end()),
        }
    }
}

// Moves the packet between two places to another place, which is as it is before the packet goes.
fn move_between(
    bits: &mut Bits,
    edited: &mut Edited,
    from: Place,
    after: Place,
    to: Place,
    used: usize,
    tag: PacketTag,
    packet: &Packet,
)
    requires { (y : Telegram) × IsShown bits.old y × IsOver edited.old y × Goes y tag packet.now from after to used }
    ensures shown { (y : Telegram) → IsShown bits.old y → IsOver edited.old y → Goes y tag packet.now from after to used → IsShown bits.new (with_packets y (moved_to from.index to.index (tag, packet.now) y.packets)) }
    ensures over { (y : Telegram) → IsShown bits.old y → IsOver edited.old y → Goes y tag packet.now from after to used → IsOver edited.new (with_packets y (moved_to from.index to.index (tag, packet.now) y.packets)) }
{
    let width = after.at - from.at;
    cut_out(bits, edited, from, width, used);
    // A place after the packet is nearer once the packet is out.
    let place = if from.index < to.index {
        Place {
            index: to.index - 1,
            at: to.at - width,
        }
    } else {
        to
    };
    // There is room for its tag.
    let _done = put_between(bits, edited, place, used - width, tag, packet);
}

// Takes the packet at a place out: what stands after it is moved over it, and the bits that are freed are the ground's.
fn cut_out(bits: &mut Bits, edited: &mut Edited, place: Place, width: usize, used: usize)
    requires { (y : Telegram) × IsShown bits.old y × IsOver edited.old y × Spot y place.index place.at width used }
    ensures shown { (y : Telegram) → IsShown bits.old y → IsOver edited.old y → Spot y place.index place.at width used → bits.new ≡ shown (with_packets y (remove y.packets place.index)) }
    ensures over { (y : Telegram) → IsShown bits.old y → IsOver edited.old y → Spot y place.index place.at width used → IsOver edited.new (with_packets y (remove y.packets place.index)) }
    ensures spare { HasRoomFor edited.new.tags 1 }
{
    let after = place.at + width;
    bits.move_part(place.at, after, used - after);
    bits.put_part(used - width, &edited.ground, used - width, width);
    // The tags are at most what there is room for, so one less leaves room for one.
    let _count = edited.tags.len();
    // The caller knows the tag that is taken out.
    let _ = edited.tags.remove(place.index);
    edited.used = used - width;
}

// Puts a packet in at a place: what stands there is moved to after it.
fn put_between(
    bits: &mut Bits,
    edited: &mut Edited,
    place: Place,
    used: usize,
    tag: PacketTag,
    packet: &Packet,
) -> Result<(), TelegramFault>
    requires { (y : Telegram) × IsShown bits.old y × IsOver edited.old y × Gap y place.index place.at (width packet.now) used }
    ensures shown { OnOk result ((y : Telegram) → IsShown bits.old y → IsOver edited.old y → Gap y place.index place.at (width packet.now) used → bits.new ≡ shown (with_packets y (insert y.packets place.index (tag, packet.now)))) }
    ensures over { OnOk result ((y : Telegram) → IsShown bits.old y → IsOver edited.old y → Gap y place.index place.at (width packet.now) used → IsOver edited.new (with_packets y (insert y.packets place.index (tag, packet.now)))) }
    ensures bits { OnErr result (bits.new ≡ bits.old) }
    ensures kept { OnErr result ((y : Telegram) → IsOver edited.old y → IsOver edited.new y) }
    ensures fault { IsOkUnless result TelegramFault.OutOfMemory }
    ensures room { HasRoomFor edited.old.tags 1 → IsOk result }
{
    edited.tags.insert(place.index, tag)?;
    let width = packet.width();
    bits.move_part(place.at + width, place.at, used - place.at);
    packet.put_over(bits, place.at);
    edited.used = used + width;
    Ok(())
}
