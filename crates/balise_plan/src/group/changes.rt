//! A change of one telegram of a group.

ghost use Rattle.balise_plan.specs.Within.{Within, Passed, no_telegram};
ghost use Rattle.balise_plan.specs.Walks.{changed, in_group, with_number, FitsName};
ghost use Rattle.std.specs.Prelude.{eqb, ◌≡◌, ◌≢◌, ◌<◌, ◌^◌, IfOk, IfErr};
ghost use Rattle.balise_rules.specs.Plan.{reserved};
ghost use Rattle.balise_plan.specs.ElementIn.{ElementIn, NoElement};
ghost use Rattle.balise_plan.specs.InTelegram.{Replaces};
ghost use Rattle.balise_rules.specs.Telegram.{Telegram};
ghost use Rattle.std.specs.Fn.{FnOnceReturnsAtMut};

use crate::group::{Group, Telegrams};
use crate::links::change::Change;
use balise_rules::{Id, Refusal, Tag, Var};
use balise_telegram::{Telegram, TelegramFault};

impl Group {
    /// Changes one telegram by a call that leaves it sound in its place, and passes on what that answers.
    #[inline(always)]
    pub(crate) fn in_telegram<A, F: FnOnce(&mut Telegram) -> Result<A, TelegramFault> + Drop>(
        &mut self,
        t: u32,
        change: F,
    ) -> Result<A, Refusal>
        requires callable { F.IsAlwaysCallable change }
        requires sound { (y z : Telegram) (r : _) → FnOnceReturnsAtMut F.FnOnce change y r z → Replaces y z }
        ensures { Within eqb t no_telegram (Passed (FnOnceReturnsAtMut F.FnOnce change)) self.old result self.new }
    {
        let Some(i) = self.telegrams.place_of(t) else {
            return Err(Refusal::NoSuchTelegram);
        };
        let telegram = &mut self.telegrams[i];
        match change(telegram) {
            Ok(answer) => Ok(answer),
            Err(fault) => Err(fault.refusal()),
        }
    }

    /// The identity of element `k`, from 0, of a packet of one telegram.
    pub(crate) fn element(&self, t: u32, p: Tag, k: u32) -> Result<Id, Refusal>
        ensures ok { IfOk result (λ id. ElementIn t p k self.now id) }
        ensures fault { IfErr result (λ e. NoElement t p k self.now e) }
    {
        let Some(i) = self.telegrams.place_of(t) else {
            return Err(Refusal::NoSuchTelegram);
        };
        let telegram = &self.telegrams[i];
        let Some(packet) = telegram.packet(p) else {
            return Err(Refusal::NoSuchPacket);
        };
        let elements = packet.elements(telegram.identity().country);
        let Some(id) = elements.get(k as usize) else {
            return Err(Refusal::NoSuchVariable);
        };
        Ok(id)
    }

    /// Changes one element. Takes no memory.
    pub(crate) fn change_link(&mut self, t: u32, p: Tag, k: u32, change: Change)
        requires { FitsName change }
        ensures { self.new ≡ in_group t p (changed change k) self.old }
    {
        let Some(i) = self.telegrams.place_of(t) else {
            return;
        };
        let telegram = &mut self.telegrams[i];
        if let Change::Name(number) = change {
            telegram.name_link(p, k, number);
            return;
        }
        telegram.flip_link(p, k);
    }

    /// Another number in each header. Takes no memory.
    pub(crate) fn put_number(&mut self, number: u32)
        requires fits { number < 2 ^ 14 }
        requires other { number ≢ reserved }
        ensures { self.new ≡ with_number number self.old }
    {
        number_each(&mut self.telegrams, number);
    }
}

// Another number in each header.
#[tactic(auto, unfolding(balise_rules::specs::Variables::width_of))]
fn number_each(telegrams: &mut Telegrams, number: u32)
    requires { number < 2 ^ 14 }
    ensures { telegrams.new ≡ with_number number telegrams.old }
{
    for i in 0..telegrams.len() {
        let telegram = &mut telegrams[i];
        telegram.put_head(Var::NidBg, number);
    }
}
