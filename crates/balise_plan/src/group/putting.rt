//! A packet put into one telegram of a group.

ghost use Rattle.std.specs.Prelude.{◌≡◌, Some, eqb, option_map};
ghost use Rattle.balise_rules.specs.Plan.{country_of};
ghost use Rattle.balise_rules.specs.Tagged.{find as under};
ghost use Rattle.balise_rules.specs.Telegram.{Telegram};
ghost use Rattle.balise_plan.specs.PutsIn.{MayStand, PutsIn, no_telegram};
ghost use Rattle.balise_plan.specs.Within.{Within};

use crate::group::Group;
use balise_index::Spot;
use balise_rules::{Refusal, Tag, Var};
use balise_telegram::{Packet, Telegram};

impl Group {
    /// NID_C of one telegram, of 10 bits.
    pub fn country(&self, t: u32) -> Option<u32>
        ensures { result ≡ option_map country_of (under eqb t self.now) }
    {
        let Some(i) = self.telegrams.place_of(t) else {
            return None;
        };
        let telegram = &self.telegrams[i];
        Some(telegram.head(Var::NidC).unwrap_or(0))
    }

    /// Puts a packet that is well-formed in a telegram's version into the telegram, under a tag that is new there.
    pub(crate) fn put_packet(
        &mut self,
        t: u32,
        spot: Spot<Tag>,
        p: Tag,
        packet: Packet,
    ) -> Result<(), (Refusal, Packet)>
        requires { (y : Telegram) → under eqb t self.old ≡ Some y → MayStand p packet y }
        ensures { Within eqb t (no_telegram packet) (PutsIn spot p packet) self.old result self.new }
    {
        let Some(i) = self.telegrams.place_of(t) else {
            return Err((Refusal::NoSuchTelegram, packet));
        };
        let telegram = &mut self.telegrams[i];
        put(telegram, spot, p, packet)
    }
}

fn put(
    telegram: &mut Telegram,
    spot: Spot<Tag>,
    p: Tag,
    packet: Packet,
) -> Result<(), (Refusal, Packet)>
    requires { MayStand p packet telegram.old }
    ensures { PutsIn spot p packet telegram.old result telegram.new }
{
    let answer = match spot {
        Spot::After(anchor) => telegram.insert_after(anchor, p, packet),
        Spot::Before(next) => telegram.put_before(next, p, packet),
    };
    match answer {
        Ok(()) => Ok(()),
        Err((fault, packet)) => Err((fault.refusal(), packet)),
    }
}
