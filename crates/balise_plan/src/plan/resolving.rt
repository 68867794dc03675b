//! From an address by identity and places to the tags that stand there.

ghost use Rattle.std.specs.Prelude.{◌≡◌, IfErr, IfOk, Ok, Err};
ghost use Rattle.balise_rules.specs.Addresses as rules;
ghost use Rattle.balise_rules.specs.Addresses.{find_group, find_packet, find_telegram};
ghost use Rattle.balise_rules.specs.Plan.{Group};
ghost use Rattle.balise_rules.specs.Tagged.{Distinct};
ghost use Rattle.balise_rules.specs.Tags.{same_tag};

use crate::plan::Plan;
use balise_rules::{Address, Id, Place, Refusal, Tag};
use balise_telegram::{PacketRef, Telegram};

impl Plan {
    /// The tags that stand at an address. Takes no memory.
    ///
    /// Refused in this order: `NoSuchGroup`, `NoSuchTelegram`, `NoSuchPacket`, `NoSuchVariable`.
    #[inline(always)]
    pub fn resolve(&self, address: Address) -> Result<Place, Refusal>
        ensures { result ≡ rules.resolve address self.now.groups }
    {
        match address {
            Address::Group(id) => {
                let g = self.find_group(id)?;
                Ok(Place::Group(g))
            }
            Address::Telegram(id, pig) => {
                let (g, t, _) = self.find_telegram(id, pig)?;
                Ok(Place::Telegram(g, t))
            }
            Address::Packet(id, pig, pkt) => {
                let (g, t, _, p, _) = self.find_packet(id, pig, pkt)?;
                Ok(Place::Packet(g, t, p))
            }
            Address::Head(id, pig, var) => {
                let (g, t, telegram) = self.find_telegram(id, pig)?;
                match telegram.head(var) {
                    Some(_) => Ok(Place::Head(g, t, var)),
                    None => Err(Refusal::NoSuchVariable),
                }
            }
            Address::Field(id, pig, pkt, var, k) => {
                let (g, t, _, p, packet) = self.find_packet(id, pig, pkt)?;
                match packet.field(var, k) {
                    Some(_) => Ok(Place::Field(g, t, p, var, k)),
                    None => Err(Refusal::NoSuchVariable),
                }
            }
        }
    }

    /// The tag of the group of an identity. Refused as `NoSuchGroup`. Takes no memory.
    #[inline(always)]
    pub fn find_group(&self, id: Id) -> Result<Tag, Refusal>
        ensures ok { IfOk result (λ g. (ys : Group) × (find_group id self.now.groups ≡ Ok (g, ys))) }
        ensures fault { IfErr result (λ e. find_group id self.now.groups ≡ Err e) }
    {
        match self.tag_of(id) {
            Some(g) => Ok(g),
            None => Err(Refusal::NoSuchGroup),
        }
    }

    /// The telegram at a place of the group of an identity, lent, with the tags that lead to it: that of the group and its
    /// own. Takes no memory. Refused in this order: `NoSuchGroup`, `NoSuchTelegram`.
    #[inline(always)]
    pub fn find_telegram(&self, id: Id, pig: u32) -> Result<(Tag, u32, &Telegram), Refusal>
        ensures ok { IfOk result (λ r. find_telegram id pig self.now.groups ≡ Ok (record { group = r.0; place = r.1; telegram = r.2.now })) }
        ensures tags { IfOk result (λ r. Distinct same_tag r.2.now.packets) }
        ensures fault { IfErr result (λ e. find_telegram id pig self.now.groups ≡ Err e) }
    {
        let Some(g) = self.tag_of(id) else {
            return Err(Refusal::NoSuchGroup);
        };
        let Some(group) = self.groups.get(g) else {
            return Err(Refusal::NoSuchGroup);
        };
        match group.at(pig as usize) {
            Some((t, telegram)) => Ok((g, t, telegram)),
            None => Err(Refusal::NoSuchTelegram),
        }
    }

    /// The packet at a place of a telegram, lent, with its telegram and the tags that lead to it: those of the group,
    /// of the telegram and its own. Takes no memory. Refused in this order: `NoSuchGroup`, `NoSuchTelegram`,
    /// `NoSuchPacket`.
    #[inline(always)]
    pub fn find_packet(
        &self,
        id: Id,
        pig: u32,
        pkt: u32,
    ) -> Result<(Tag, u32, &Telegram, Tag, PacketRef<'_>), Refusal>
        ensures ok { IfOk result (λ r. find_packet id pig pkt self.now.groups ≡ Ok (record { group = r.0; place = r.1; telegram = r.2.now; tag = r.3; packet = r.4 })) }
        ensures tags { IfOk result (λ r. Distinct same_tag r.2.now.packets) }
        ensures fault { IfErr result (λ e. find_packet id pig pkt self.now.groups ≡ Err e) }
    {
        let (g, t, telegram) = match self.find_telegram(id, pig) {
            Ok(found) => found,
            Err(fault) => return Err(fault),
        };
        match telegram.at(pkt as usize) {
            Some((p, packet)) => Ok((g, t, telegram, p, packet)),
            None => Err(Refusal::NoSuchPacket),
        }
    }
}
