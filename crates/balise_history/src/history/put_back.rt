//! The standing entries with all that was undone or struck put back, as copies.

ghost use Rattle.std.specs.Prelude.{◌≡◌, IfOk, IsOkUnless, OnOk};
ghost use Rattle.balise_history.specs.Lists.{gone_of, items_of, Ascends};
ghost use Rattle.balise_history.specs.Returned.{all_returned, returned, AllReturn};
ghost use Rattle.balise_rules.specs.declared.refusal.Refusal.TheVariants.{OutOfMemory};
ghost use Rattle.balise_strike_laws.specs.InSession.{Rising};

use crate::history::{History, Undone, place_of, re_anchor_from};
use balise_edits::Entry;
use balise_rules::Refusal;
use std::alloc::Global;

// A copy of the entries.
fn copies(alloc: Global, entries: &[Entry]) -> Result<Vec<Entry>, Refusal>
    ensures ok { IfOk result (λ v. v.items ≡ entries.now) }
    ensures fault { IsOkUnless result OutOfMemory }
{
    let mut copied = Vec::new(alloc);
    for entry in entries {
        copied.push(entry.copy()?)?;
    }
    Ok(copied)
}

// Puts an entry that was undone or struck back at its own place.
fn put_copy(entries: &mut Vec<Entry>, undone: &Undone) -> Result<(), Refusal>
    requires rising { Rising (items_of entries.old.items) }
    requires ascends { Ascends undone.now.behind.items }
    ensures ok { OnOk result (entries.new.items ≡ returned entries.old.items (gone_of undone.now)) }
    ensures fault { IsOkUnless result OutOfMemory }
{
    let entry = undone.entry.copy()?;
    let place = place_of(entries, entry.serial());
    re_anchor_from(entries, place, &undone.behind, &entry, true);
    entries.insert(place, entry)?;
    Ok(())
}

impl History {
    /// The entries that would stand if all that was undone or struck were done again, the last one of it first.
    pub(crate) fn all_back(&self) -> Result<Vec<Entry>, Refusal>
        requires { AllReturn self.now.stack self.now.standing }
        ensures ok { IfOk result (λ v. v.items ≡ all_returned self.now.stack self.now.standing) }
        ensures fault { IsOkUnless result OutOfMemory }
    {
        let mut entries = copies(*self.standing.allocator(), &self.standing)?;
        let mut left = self.stack.len();
        while left > 0 {
            left -= 1;
            put_copy(&mut entries, &self.stack[left])?;
        }
        Ok(entries)
    }
}
