//! The line of a journal for an entry.

ghost use Rattle.std.specs.Prelude.{◌≡◌, IfOk, IsOkUnless};
ghost use Rattle.balise_rules.specs.Journal.{line_edit, line_of, noted_of, whole_bytes};
ghost use Rattle.balise_commands.specs.Lines.{line_edit_of, line_in, noted_in};
ghost use Rattle.balise_edits.specs.Edits.{edit_of};

use crate::copying::copy_telegrams;
use crate::edit::Edit;
use crate::entry::Entry;
use balise_commands::{Line, LineEdit, Noted};
use balise_plan::{Bits, Packet};
use balise_rules::Refusal;
use std::alloc::Global;

// The bits of a packet, and zeros to a whole byte.
fn whole_bytes(alloc: Global, packet: &Packet) -> Result<Bits, Refusal>
    ensures ok { IfOk result (λ bits. bits ≡ whole_bytes packet.now) }
    ensures fault { IsOkUnless result Refusal.OutOfMemory }
{
    let width = packet.width();
    let mut bits = Bits::new(alloc);
    if packet.write(&mut bits).is_err() {
        return Err(Refusal::OutOfMemory);
    }
    bits.push_zeros((8 - width % 8) % 8)?;
    Ok(bits)
}

// The edit as a line has it.
fn line_edit(alloc: Global, edit: &Edit) -> Result<LineEdit, Refusal>
    ensures ok { IfOk result (λ line. line_edit_of line ≡ line_edit (edit_of edit.now)) }
    ensures fault { IsOkUnless result Refusal.OutOfMemory }
{
    edit.as_ref().try_map(
        |_, _, packet| whole_bytes(alloc, packet),
        |telegrams| copy_telegrams(telegrams),
    )
}

impl Entry {
    /// What its line has noted of the plan before its edit. Takes no memory.
    pub fn noted(&self) -> Noted
        ensures { noted_in result ≡ noted_of self.now.0.1 self.now.1 }
    {
        let note = self.note();
        match self.edit() {
            Edit::SetVar { .. } => Noted::Value(note.old()),
            Edit::SetHead { .. } => Noted::Value(note.old()),
            Edit::DeletePacket { .. } => Noted::BeforePacket(note.before()),
            Edit::MovePacket { .. } => Noted::BeforePacket(note.before()),
            Edit::DropGroup { .. } => Noted::BeforeGroup(note.before()),
            Edit::Renumber { .. } => Noted::Number(note.old()),
            _ => Noted::Nothing,
        }
    }

    /// Its line in a journal.
    pub fn line(&self) -> Result<Line, Refusal>
        ensures ok { IfOk result (λ line. line_in line ≡ line_of self.now) }
        ensures fault { IsOkUnless result Refusal.OutOfMemory }
    {
        let edit = line_edit(self.allocator(), self.edit())?;
        let noted = self.noted();
        Ok(Line {
            serial: self.serial(),
            edit,
            noted,
        })
    }
}
