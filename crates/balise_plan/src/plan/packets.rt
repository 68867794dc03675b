//! Packets of a plan put in, taken out and moved.

ghost use Rattle.std.specs.Prelude.{◌≡◌, IfOk, Some, None};
ghost use Rattle.balise_rules.specs.declared.tagged_edit.TaggedEdit.TheVariants.{DeletePacket, MovePacket};
ghost use Rattle.balise_rules.specs.Notes.{noted};
ghost use Rattle.balise_rules.specs.Packet.{IsSpelt};
ghost use Rattle.balise_rules.specs.Plan.{telegram_at};
ghost use Rattle.balise_rules.specs.Tagged.{find};
ghost use Rattle.balise_rules.specs.Tags.{same_tag};
ghost use Rattle.balise_rules.specs.Telegram.{Telegram, version_of};
ghost use Rattle.balise_telegram.specs.Changes.{OrWants};
ghost use Rattle.balise_plan.specs.Held.{Does, MayChange};
ghost use Rattle.balise_plan.specs.PutsIn.{ShiftsIn};
ghost use Rattle.balise_plan.specs.Spots.{PutsPacket, ShiftsPacket};

use crate::links::packet::{forget_packet, set_packet};
use crate::packet_place::PacketPlace;
use crate::plan::Plan;
use balise_index::Spot;
use balise_rules::{Refusal, Tag};
use balise_telegram::{Packet, Telegram, TelegramFault};

impl Plan {
    /// Puts a packet that is well-formed in a telegram's version into the telegram, under a tag that is new there.
    ///
    /// Refused in this order, and then all stays and the packet is returned: `NoSuchGroup`, `NoSuchTelegram`,
    /// `NoSuchPacket` where the neighbour doesn't stand, `NoRoom` where the packet is wider than the room.
    /// `OutOfMemory` may stand in place of any answer.
    pub fn put_packet(
        &mut self,
        g: Tag,
        t: u32,
        spot: Spot<Tag>,
        p: Tag,
        packet: Packet,
    ) -> Result<(), (Refusal, Packet)>
        requires count { MayChange self.old }
        requires new { (y : Telegram) → telegram_at g t self.old.groups ≡ Some y → find same_tag p y.packets ≡ None }
        requires spelt { (y : Telegram) → telegram_at g t self.old.groups ≡ Some y → IsSpelt (version_of y) packet }
        ensures { PutsPacket g t spot p packet self.old result self.new }
    {
        let alloc = self.groups.allocator();
        let Some(group) = self.groups.get_mut(g) else {
            return Err((Refusal::NoSuchGroup, packet));
        };
        let Some(country) = group.country(t) else {
            return Err((Refusal::NoSuchTelegram, packet));
        };
        let place = PacketPlace {
            group: g,
            telegram: t,
            packet: p,
        };
        if set_packet(alloc, &mut self.index, place, country, &packet.lend(), true).is_err() {
            forget_packet(alloc, &mut self.index, place, country, &packet.lend());
            return Err((Refusal::OutOfMemory, packet));
        }
        if let Err((fault, packet)) = group.put_packet(t, spot, p, packet) {
            forget_packet(alloc, &mut self.index, place, country, &packet.lend());
            return Err((fault, packet));
        }
        self.changes += 1;
        Ok(())
    }

    /// Takes a packet out of a telegram, and answers it and the tag of its next neighbour.
    ///
    /// Refused in this order, and then all stays: `NoSuchGroup`, `NoSuchTelegram`, `NoSuchPacket`. `OutOfMemory` may
    /// stand in place of any answer.
    pub fn take_packet(&mut self, g: Tag, t: u32, p: Tag) -> Result<(Packet, Option<Tag>), Refusal>
        requires count { MayChange self.old }
        ensures does { Does (DeletePacket g t p) self.old result self.new }
        ensures taken { IfOk result (λ r. ((noted (DeletePacket g t p) self.old.groups).packet ≡ Some r.0) × ((noted (DeletePacket g t p) self.old.groups).before ≡ r.1)) }
    {
        let alloc = self.groups.allocator();
        let Some(group) = self.groups.get_mut(g) else {
            return Err(Refusal::NoSuchGroup);
        };
        let Some(country) = group.country(t) else {
            return Err(Refusal::NoSuchTelegram);
        };
        let (taken, next) = match group.in_telegram(t, |telegram| telegram.take(p)) {
            Ok(taken) => taken,
            Err(fault) => return Err(fault),
        };
        let place = PacketPlace {
            group: g,
            telegram: t,
            packet: p,
        };
        forget_packet(alloc, &mut self.index, place, country, &taken.lend());
        self.changes += 1;
        Ok((taken, next))
    }

    /// Moves a packet within its telegram to a spot, and answers the tag of its old next neighbour.
    ///
    /// Refused in this order, and then all stays: `NoSuchGroup`, `NoSuchTelegram`, `NoSuchPacket` where it or the
    /// spot's neighbour doesn't stand, `SamePlace` where it stands there. `OutOfMemory` may stand in place of any answer.
    pub fn shift_packet(
        &mut self,
        g: Tag,
        t: u32,
        p: Tag,
        spot: Spot<Tag>,
    ) -> Result<Option<Tag>, Refusal>
        requires count { MayChange self.old }
        ensures shifts { ShiftsPacket g t p spot self.old result self.new }
        ensures next { IfOk result (λ n. (noted (MovePacket g t p None) self.old.groups).before ≡ n) }
    {
        self.in_telegram(g, t, |telegram| shift(telegram, p, spot))
    }
}

// Moves a packet of a telegram to a spot.
fn shift(telegram: &mut Telegram, p: Tag, spot: Spot<Tag>) -> Result<Option<Tag>, TelegramFault>
    ensures { OrWants (ShiftsIn spot p) telegram.old result telegram.new }
{
    match spot {
        Spot::After(anchor) => telegram.shift_after(p, anchor),
        Spot::Before(next) => telegram.shift_before(p, next),
    }
}
