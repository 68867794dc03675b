//! The packets of a telegram, one after another.

ghost use Rattle.std.specs.Iterator.{YieldsFirst, item_count};
ghost use Rattle.std.specs.Prelude.{◌≡◌};

use crate::PacketTag;
use crate::telegram::Telegram;
use crate::telegram::walking::{Place, first, head_at, to_linking};
use balise_layout::PacketRef;
use std::iter::FusedIterator;
use std::marker::Model;

/// The packets of a telegram that are left, each with its tag, lent.
#[derive(Drop)]
pub struct Packets<'a> {
    telegram: &'a Telegram,
    version: u32,
    place: Place,
}

impl<'a> Model for Packets<'a> {
    ghost use Rattle.std.specs.Prelude.{◌≡◌, List, drop};
    ghost use Rattle.balise_rules.specs.declared.tag.Tag.{Tag};
    ghost use Rattle.balise_rules.specs.Packet as rules;
    ghost use Rattle.balise_rules.specs.Telegram.{version_of};
    ghost use Rattle.balise_telegram.specs.Shown.{IsPlace};

    ghost Value = { List (Tag × rules.Packet) };

    ghost view = { λ p. drop p.place.index p.telegram.now.packets };

    ghost invariant = { λ p. (p.version ≡ version_of p.telegram.now) × IsPlace p.telegram.now p.place };
}

impl<'a> Iterator for Packets<'a> {
    type Item = (PacketTag, PacketRef<'a>);

    ghost next_gives = { YieldsFirst (λ rest. rest) };

    ghost remaining = { item_count (λ rest. rest) };

    // Inlined, so that a loop that looks at few packets doesn't put together the others.
    #[inline(always)]
    fn next(&mut self) -> Option<(PacketTag, PacketRef<'a>)> {
        let place = self.place;
        let telegram = self.telegram;
        let packed = telegram.packed();
        let Some(head) = head_at(packed, place) else {
            return None;
        };
        let Some(tag) = telegram.tag_there(place) else {
            return None;
        };
        let packet = PacketRef::of_head(packed, place.at, self.version, head);
        self.place = telegram.after_lent(place, &packet);
        Some((tag, packet))
    }
}

impl<'a> FusedIterator for Packets<'a> {}

impl<'a> Packets<'a> {
    ghost use Rattle.std.specs.Prelude.{◌∷◌, ◌⊎◌, IfNone, IfSome};
    ghost use Rattle.balise_rules.specs.Packet.{value};
    ghost use Rattle.balise_rules.specs.declared.variable.Var.TheVariants.{NidPacket};
    ghost use Rattle.balise_telegram.specs.Linking.{NameNothing, PassesOver};

    /// The next packet that may have elements, of packets 5 and 136 (SUBSET-026, 7.4.2), with its tag, lent. Those before
    /// it, which name no identity, are passed over, and nothing is put together for them.
    #[inline(always)]
    pub fn next_linking(&mut self) -> Option<(PacketTag, PacketRef<'a>)>
        ensures none { IfNone result (NameNothing self.old) }
        ensures some { IfSome result (λ r. PassesOver self.old ((r.0, r.1) ∷ self.new)) }
        ensures linking { IfSome result (λ r. (value NidPacket 0 r.1.fields ≡ 5) ⊎ (value NidPacket 0 r.1.fields ≡ 136)) }
    {
        let telegram = self.telegram;
        let packed = telegram.packed();
        let (place, head) = to_linking(packed, self.place);
        self.place = place;
        let Some(head) = head else {
            return None;
        };
        let Some(tag) = telegram.tag_there(place) else {
            return None;
        };
        let packet = PacketRef::of_head(packed, place.at, self.version, head);
        self.place = telegram.after_lent(place, &packet);
        Some((tag, packet))
    }
}

impl Telegram {
    /// Its packets in order, each with its tag, lent.
    pub fn packets(&self) -> Packets<'_>
        ensures { result ≡ self.now.packets }
    {
        Packets {
            telegram: self,
            version: self.version(),
            place: first(),
        }
    }
}
