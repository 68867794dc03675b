//! What was taken out of the plan: in the entry while its edit stands, and in the plan once it is taken back.

ghost use Rattle.std.specs.Prelude.{◌≡◌, None, Some};
ghost use Rattle.balise_edits.specs.Notes.{kind_of, with_group, with_packet, OfDeletion, OfRemoval};

use crate::entry::Entry;
use crate::note::Note;
use balise_plan::{Group, Packet};

impl Entry {
    /// The packet that was taken out, if the entry has one; it has none then.
    pub(crate) fn take_packet(&mut self) -> Option<Packet>
        ensures taken { result ≡ self.old.1.packet }
        ensures left { self.new ≡ (self.old.0, with_packet None self.old.1) }
    {
        match &mut self.done.note {
            Note::Deleted { taken } => taken.packet.take(),
            Note::DeletedLinks { taken } => taken.packet.take(),
            _ => None,
        }
    }

    /// Has the packet that a deletion took out.
    pub(crate) fn keep_packet(&mut self, packet: Packet)
        requires { kind_of self.old.0.1 ≡ OfDeletion }
        ensures { self.new ≡ (self.old.0, with_packet (Some packet) self.old.1) }
    {
        self.done.note.keep_packet(packet);
    }

    /// The group that was taken out, if the entry has one; it has none then.
    pub(crate) fn take_group(&mut self) -> Option<Group>
        ensures taken { result ≡ self.old.1.group }
        ensures left { self.new ≡ (self.old.0, with_group None self.old.1) }
    {
        match &mut self.done.note {
            Note::DroppedLink { taken } => taken.group.take(),
            Note::Dropped { taken } => taken.group.take(),
            _ => None,
        }
    }

    /// Has the group that a removal took out.
    pub(crate) fn keep_group(&mut self, group: Group)
        requires { kind_of self.old.0.1 ≡ OfRemoval }
        ensures { self.new ≡ (self.old.0, with_group (Some group) self.old.1) }
    {
        self.done.note.keep_group(group);
    }
}
