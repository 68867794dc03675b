//! A group read from the bits of its telegrams.

ghost use Rattle.std.specs.Prelude.{◌≡◌, ◌≢◌, ◌+◌, ◌-◌, ◌<◌, ◌^◌, IfErr, IfOk, MatchResult, length, Bool, List, Ok, Err};
ghost use Rattle.balise_plan.specs.GroupReading.{group_of, WereRead};
ghost use Rattle.balise_rules.specs.Plan.{agree_from, identity_of, read_group, IsSoundGroup};

use crate::group::{Group, Telegrams, identity};
use crate::one_or_more::OneOrMore;
use balise_rules::{Id, NO_GROUP, Refusal};
use balise_telegram::{Bits, Telegram};
use std::alloc::Global;

impl Group {
    /// The group of these telegrams, tagged by their places from 0.
    ///
    /// Refused in this order: `GroupSize` for none or more than eight, the fault of the first telegram that has one,
    /// `HeaderDisagrees`, `NumberReserved`. `OutOfMemory` may stand in place of any answer.
    pub fn read(alloc: Global, telegrams: Vec<Bits>) -> Result<Group, Refusal>
        ensures ok { IfOk result (λ g. read_group telegrams.items ≡ Ok g) }
        ensures sound { IfOk result (λ g. IsSoundGroup g) }
        ensures fault { IfErr result (λ e. e ≢ Refusal.OutOfMemory → read_group telegrams.items ≡ Err e) }
    {
        let count = telegrams.len();
        if (count < 1) | (count > 8) {
            return Err(Refusal::GroupSize);
        }
        let mut read = OneOrMore::new(alloc);
        for bits in telegrams {
            let telegram = match Telegram::of_bits(bits) {
                Ok(telegram) => telegram,
                Err(fault) => return Err(fault.refusal()),
            };
            read.push(telegram)?;
        }
        match Group::of_read(read) {
            Ok((_, group)) => Ok(group),
            Err(refusal) => Err(refusal),
        }
    }

    // The group of telegrams that were read, and its identity.
    #[inline(always)]
    pub(crate) fn of_read(telegrams: Telegrams) -> Result<(Id, Group), Refusal>
        requires { WereRead telegrams }
        ensures group { MatchResult result (λ r. group_of telegrams ≡ Ok r.1) (λ e. group_of telegrams ≡ Err e) }
        ensures same { IfOk result (λ r. r.1 ≡ telegrams) }
        ensures own { IfOk result (λ r. r.0 ≡ identity_of r.1) }
        ensures sound { IfOk result (λ r. IsSoundGroup r.1) }
        ensures read { IfOk result (λ r. (bs : List (List Bool)) × (read_group bs ≡ Ok r.1)) }
    {
        let count = telegrams.len();
        if count == 0 {
            return Err(Refusal::GroupSize);
        }
        let id = identity(&telegrams);
        if !agree(&telegrams, id) {
            return Err(Refusal::HeaderDisagrees);
        }
        if id.number == NO_GROUP {
            return Err(Refusal::NumberReserved);
        }
        Ok((id, Group { telegrams }))
    }
}

// Whether each telegram has its place as N_PIG, the count less one as N_TOTAL, and this identity.
fn agree(telegrams: &Telegrams, id: Id) -> bool
    requires { length telegrams.now < 2 ^ 32 }
    ensures { result ≡ agree_from id (length telegrams.now - 1) 0 telegrams.now }
{
    let last = telegrams.len().saturating_sub(1);
    for i in 0..telegrams.len() {
        let telegram = &telegrams[i];
        let (place, total) = telegram.place_in_group();
        let own = telegram.identity();
        if (place as usize != i) | (total as usize != last) | (own != id) {
            return false;
        }
    }
    true
}
