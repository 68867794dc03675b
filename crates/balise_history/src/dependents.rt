//! Which later entries depend on an entry, and whether it can be struck under them.

ghost use Rattle.std.specs.Prelude.{◌≡◌, ◌≢◌, map, true, Err, IfErr, IfOk, IsOkUnless, None, Ok, Some};
ghost use Rattle.balise_edits.specs.Homes.{number_at};
ghost use Rattle.balise_history.specs.Dependents.{dependents, dependents_of};
ghost use Rattle.balise_history.specs.Lists.{items_of};
ghost use Rattle.balise_history.specs.Tests.{Fails};
ghost use Rattle.balise_rules.specs.Behind.{serials_behind};
ghost use Rattle.balise_rules.specs.Session.{first_dependent, needs_no_memory};
ghost use Rattle.balise_strike_laws.specs.InSession.{Rising};

use crate::history::place_of;
use balise_edits::{Entry, apart, count_apart, independent, stands_behind};
use balise_rules::Refusal;
use std::alloc::Global;

/// The serials of the later entries that stand after an entry, if all are independent of it. Refused as `DependsOn`,
/// with the serial of the first one that isn't; or as `OutOfMemory`, only if the entry's edit puts something in. Each
/// entry is tested once, by its home's number where that is enough.
pub(crate) fn serials_behind(
    alloc: Global,
    entry: &Entry,
    later: &[Entry],
    homes: &[u16],
) -> Result<Vec<u32>, Refusal>
    requires homes { homes.now ≡ map number_at later.now }
    ensures independent { IfOk result (λ v. first_dependent entry.now later.now ≡ None) }
    ensures ok { IfOk result (λ v. v.items ≡ serials_behind entry.now later.now) }
    ensures fault { IfErr result (Fails entry.now later.now) }
    ensures always { needs_no_memory (Some entry.now.0) ≡ true → IfErr result (λ r. r ≢ Refusal.OutOfMemory) }
{
    let mut behind = Vec::new(alloc);
    let mut place = 0;
    'later: while place < later.len() {
        place += count_apart(entry, &homes[place..]);
        let Some(f) = later.get(place) else {
            break;
        };
        place += 1;
        if apart(entry, f) {
            continue;
        }
        if !stands_behind(entry, f) {
            return Err(Refusal::DependsOn(f.serial()));
        }
        behind.push(f.serial())?;
    }
    Ok(behind)
}

/// The serials of the entries that depend on the one of a serial, in order, among those that stand by rising serial.
/// Refused as `NoSuchEdit` where none has the serial, or as `OutOfMemory`.
pub(crate) fn dependents_of(
    alloc: Global,
    standing: &[Entry],
    homes: &[u16],
    serial: u32,
) -> Result<Vec<u32>, Refusal>
    requires homes { homes.now ≡ map number_at standing.now }
    requires rising { Rising (items_of standing.now) }
    ensures ok { IfOk result (λ v. dependents_of serial standing.now ≡ Ok v.items) }
    ensures fault { IfErr result (λ r. r ≢ Refusal.OutOfMemory → dependents_of serial standing.now ≡ Err r) }
{
    let place = place_of(standing, serial);
    if place >= standing.len() {
        return Err(Refusal::NoSuchEdit);
    }
    let entry = &standing[place];
    if entry.serial() != serial {
        return Err(Refusal::NoSuchEdit);
    }
    dependents_among(alloc, entry, &standing[place + 1..], &homes[place + 1..])
}

// The serials of the later entries that depend on an entry; each is tested once, by the number of its home where that is
// enough.
fn dependents_among(
    alloc: Global,
    entry: &Entry,
    later: &[Entry],
    homes: &[u16],
) -> Result<Vec<u32>, Refusal>
    requires homes { homes.now ≡ map number_at later.now }
    ensures ok { IfOk result (λ v. v.items ≡ dependents entry.now later.now) }
    ensures fault { IsOkUnless result Refusal.OutOfMemory }
{
    let mut dependents = Vec::new(alloc);
    let mut place = 0;
    'later: while place < later.len() {
        place += count_apart(entry, &homes[place..]);
        let Some(f) = later.get(place) else {
            break;
        };
        place += 1;
        if independent(entry, f) {
            continue;
        }
        dependents.push(f.serial())?;
    }
    Ok(dependents)
}
