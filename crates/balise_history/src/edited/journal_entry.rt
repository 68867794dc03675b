//! A line of a journal done.

ghost use Rattle.std.specs.Prelude.{◌≡◌, ◌<◌, ◌^◌, true, IfErr, IfOk, IsErrOf, Some, option_and_then};
ghost use Rattle.balise_edits.specs.Edits.{edit_of};
ghost use Rattle.balise_commands.specs.Lines.{line_edit_of, line_in, noted_in};
ghost use Rattle.balise_history.specs.Held.{IsHeld, state_at};
ghost use Rattle.balise_history.specs.Lists.{items_of};
ghost use Rattle.balise_history.specs.Openings.{comes_next, Enters, EntersIn, MayComeNext, Mismatches};
ghost use Rattle.balise_rules.specs.Journal.{same_noted};
ghost use Rattle.balise_rules.specs.Plan.{telegram_at};
ghost use Rattle.balise_rules.specs.Opening.{edit_in, last_serial, packet_for};

use crate::edited::EditedPlan;
use crate::history::History;
use balise_edits::{Bits, Edit, Entry, Line, LineEdit, Noted, Packet, Plan, apply, packet_in};
use balise_rules::{Refusal, Tag};

// Whether two lines say the same of the plan before their edits.
fn same_noted(a: Noted, b: Noted) -> bool
    ensures { result ≡ same_noted (noted_in a) (noted_in b) }
{
    a == b
}

// The serial of the last entry; 0 where there is none.
fn last_serial(entries: &[Entry]) -> u32
    ensures { result ≡ last_serial (items_of entries.now) }
{
    match entries.last() {
        Some(entry) => entry.serial(),
        None => 0,
    }
}

// The packet in the digits of a line that inserts it; refused where they aren't one for the telegram.
fn packet_for(plan: &Plan, g: Tag, t: u32, digits: &Bits) -> Result<Box<Packet>, Refusal>
    ensures ok { IfOk result (λ x. option_and_then (packet_for digits.now) (telegram_at g t plan.now.groups) ≡ Some x.value) }
    ensures fault { IfErr result (λ r. Mismatches r (option_and_then (packet_for digits.now) (telegram_at g t plan.now.groups))) }
{
    let Some(telegram) = plan.telegram(g, t) else {
        return Err(Refusal::JournalMismatch);
    };
    match packet_in(digits, telegram.version()) {
        Ok(packet) => Ok(Box::new(plan.allocator(), packet)?),
        Err(Refusal::OutOfMemory) => Err(Refusal::OutOfMemory),
        Err(_) => Err(Refusal::JournalMismatch),
    }
}

// The edit of a line on a plan; refused where it inserts what isn't a packet for its telegram.
fn edit_in(plan: &Plan, edit: LineEdit) -> Result<Edit, Refusal>
    ensures ok { IfOk result (λ e. edit_in (line_edit_of edit) plan.now.groups ≡ Some (edit_of e)) }
    ensures fault { IfErr result (λ r. Mismatches r (edit_in (line_edit_of edit) plan.now.groups)) }
{
    edit.try_map(
        |g, t, digits| packet_for(plan, g, t, &digits),
        |telegrams| Ok(telegrams),
    )
}

// Whether the edit of a serial may come next: nothing was undone or struck, and it is above the last serial and below
// the next.
fn comes_next(history: &History, next: u32, serial: u32) -> bool
    ensures { result ≡ comes_next history.now next serial }
{
    history.count_undone() == 0 && last_serial(history.standing()) < serial && serial < next
}

// Does the edit of a line that may come next after those that stand. Where it notes something else than the line says,
// it is done, and the line is refused.
fn enter(plan: &mut Plan, history: &mut History, next: u32, line: Line) -> Result<(), Refusal>
    requires count { plan.old.changes < 2 ^ 63 }
    requires held { IsHeld plan.old.groups history.old.standing history.old.stack next }
    requires comes { comes_next history.old next line.serial ≡ true }
    ensures { EntersIn (line_in line) next plan.old history.old result plan.new history.new }
{
    let edit = edit_in(plan, line.edit)?;
    history.reserve()?;
    let entry = match apply(plan, edit, line.serial) {
        Ok(entry) => entry,
        Err(Refusal::OutOfMemory) => return Err(Refusal::OutOfMemory),
        Err(_) => return Err(Refusal::JournalMismatch),
    };
    let is_told = same_noted(entry.noted(), line.noted);
    history.push(entry);
    if is_told {
        Ok(())
    } else {
        Err(Refusal::JournalMismatch)
    }
}

impl EditedPlan {
    /// Does the edit of a line under its own serial, as `Opening::enter` does, with the same refusals. An edit that
    /// noted something else than the line stays done. Memory may run out only where the serial may come next.
    pub(crate) fn entry(&mut self, line: Line) -> Result<(), Refusal>
        requires { self.old.changes < 2 ^ 63 }
        ensures enters { Enters (line_in line) self.old result self.new }
        ensures memory { IsErrOf result Refusal.OutOfMemory → MayComeNext (state_at 0 self.old) line.serial }
    {
        let EditedPlan {
            plan,
            history,
            next,
        } = self;
        if !comes_next(history, *next, line.serial) {
            return Err(Refusal::JournalMismatch);
        }
        enter(plan, history, *next, line)
    }
}
