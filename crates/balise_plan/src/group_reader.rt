//! A group read telegram by telegram.

ghost use Rattle.std.specs.Prelude.{◌≡◌, [], Bool, IfOk, List, length, Ok};
ghost use Rattle.balise_plan.specs.GroupNames.{AreLinks};
ghost use Rattle.balise_plan.specs.GroupReading.{group_of, ReadsOn, WereRead};
ghost use Rattle.balise_rules.specs.Plan.{read_group, IsSoundGroup};

use crate::group::{Group, Telegrams};
use crate::group_names::GroupNames;
use crate::one_or_more::OneOrMore;
use balise_rules::Refusal;
use balise_telegram::{Bits, Telegram};
use std::alloc::Global;
use std::marker::Model;

/// A group to be: the telegrams that were read so far, tagged by their places from 0.
#[derive(Drop)]
pub struct GroupReader {
    telegrams: Telegrams,
    names: GroupNames,
}

impl Model for GroupReader {
    ghost use Rattle.balise_rules.specs.Plan as rules;
    ghost use Rattle.balise_plan.specs.GroupNames.{AreLinks};
    ghost use Rattle.balise_plan.specs.GroupReading.{WereRead};

    ghost Value = { rules.Group };

    ghost view = { λ g. g.telegrams };

    ghost invariant = { λ g. WereRead g.telegrams × AreLinks g.names g.telegrams };
}

impl GroupReader {
    /// Before the first telegram. Takes no memory.
    pub fn new(alloc: Global) -> GroupReader
        ensures { result ≡ [] }
    {
        GroupReader {
            telegrams: OneOrMore::new(alloc),
            names: GroupNames::Nothing,
        }
    }

    /// How many telegrams were read.
    pub fn count(&self) -> usize
        ensures { result ≡ length self.now }
    {
        self.telegrams.len()
    }

    /// Reads one telegram more.
    ///
    /// Refused in this order, and then all stays: `GroupSize` for a telegram after the eighth, which isn't looked at,
    /// then as `Telegram::of_bits` refuses. `OutOfMemory` may stand in place of any answer but `GroupSize`.
    pub fn push(&mut self, bits: Bits) -> Result<(), Refusal>
        ensures { ReadsOn bits self.old result self.new }
    {
        let tag = self.telegrams.len();
        if tag >= 8 {
            return Err(Refusal::GroupSize);
        }
        let (telegram, names) = match Telegram::named(bits) {
            Ok(read) => read,
            Err(fault) => return Err(fault.refusal()),
        };
        self.telegrams.push(telegram)?;
        self.names.add(tag as u32, names);
        Ok(())
    }

    /// The group of the telegrams that were read. Takes no memory.
    ///
    /// Refused in this order: `GroupSize` for none, `HeaderDisagrees`, `NumberReserved`.
    pub fn done(self) -> Result<Group, Refusal>
        ensures group { result ≡ group_of self }
        ensures sound { IfOk result (λ g. IsSoundGroup g) }
        ensures read { IfOk result (λ g. (bs : List (List Bool)) × (read_group bs ≡ Ok g)) }
    {
        let (telegrams, _names) = self.into_parts();
        match Group::of_read(telegrams) {
            Ok((_, group)) => Ok(group),
            Err(refusal) => Err(refusal),
        }
    }

    // The telegrams that were read, and what they name.
    #[inline(always)]
    pub(crate) fn into_parts(self) -> (Telegrams, GroupNames)
        ensures telegrams { result.0 ≡ self }
        ensures names { AreLinks result.1 self }
        ensures read { WereRead self }
    {
        let GroupReader { telegrams, names } = self;
        (telegrams, names)
    }
}
