//! What an edit notes of the plan before it is done.

ghost use Rattle.std.specs.Prelude.{◌≡◌, false, IfOk, IsOk, IsOkUnless, Some};
ghost use Rattle.balise_rules.specs.Notes.{nothing};
ghost use Rattle.balise_edits.specs.Notes.{are_two, kind_in, names_in, note_of, of_named, with_group, with_names, with_old, with_packet, with_taken_group, with_taken_packet, OfAddition, OfDeletion, OfField, OfInsertion, OfRemoval};

use crate::copying::copy_names;
use crate::taken::{
    AddedGroup, TakenGroup, TakenPacket, copy_group_added, copy_group_taken, copy_packet_taken,
};
use balise_plan::{Group, Packet};
use balise_rules::{Id, Refusal, Tag};
use std::alloc::Global;

/// The identities that a setting has to do with: the old and the new one of a link, or of an orientation the link's.
#[derive(Clone, Copy)]
pub(crate) enum Names {
    Neither,
    One([Id; 1]),
    Both([Id; 2]),
}

/// What an edit notes of the plan before it is done, by the kind of the edit. It takes 16 bytes: what is larger has a
/// place of its own, as few notes have it. `before` is the old next neighbour, or none for the end. What was taken out
/// of the plan is here while the edit stands, and in the plan once it is taken back.
#[derive(Drop)]
pub(crate) enum Note {
    /// A field set that has to do with no identity.
    Field { old: u32 },
    /// A field of a link set that has to do with one identity.
    Linked { old: u32, names: [Id; 1] },
    /// A link set from one identity to another.
    Relinked { old: u32, names: Box<[Id; 2]> },
    /// A field of a header set.
    Header { old: u32 },
    /// A packet put in that names no identity, as most don't.
    Inserted,
    /// A packet put in, and the identities that it names.
    InsertedLinks { names: Box<Vec<Id>> },
    /// A packet taken out that names no identity.
    Deleted { taken: Box<TakenPacket<()>> },
    /// A packet taken out, and the identities that it names.
    DeletedLinks { taken: Box<TakenPacket<Vec<Id>>> },
    /// A packet moved.
    Moved { before: Option<Tag> },
    /// A group put in that names one identity, as most do.
    AddedLink { added: Box<AddedGroup<[Id; 1]>> },
    /// A group put in.
    Added { added: Box<AddedGroup<Vec<Id>>> },
    /// A group taken out that names one identity.
    DroppedLink { taken: Box<TakenGroup<[Id; 1]>> },
    /// A group taken out.
    Dropped { taken: Box<TakenGroup<Vec<Id>>> },
    /// A group renumbered or turned: its old identity.
    Own(Id),
}

impl Note {
    /// The note of a field that will be set, but for its old value. Takes memory for two identities alone.
    pub(crate) fn of_field(alloc: Global, names: Names) -> Result<Note, Refusal>
        ensures noted { IfOk result (λ note. note_of note ≡ with_names (names_in names) nothing) }
        ensures kind { IfOk result (λ note. kind_in note ≡ OfField) }
        ensures fault { IsOkUnless result Refusal.OutOfMemory }
        ensures always { are_two names ≡ false → IsOk result }
    {
        let old = 0;
        match names {
            Names::Neither => Ok(Note::Field { old }),
            Names::One(names) => Ok(Note::Linked { old, names }),
            Names::Both(names) => Ok(Note::Relinked {
                old,
                names: Box::new(alloc, names)?,
            }),
        }
    }

    /// The note of a packet that will be put in and names these identities. Takes no memory for none.
    pub(crate) fn of_insertion(names: Vec<Id>) -> Result<Note, Refusal>
        ensures noted { IfOk result (λ note. note_of note ≡ with_names names.items nothing) }
        ensures kind { IfOk result (λ note. kind_in note ≡ OfInsertion) }
        ensures fault { IsOkUnless result Refusal.OutOfMemory }
    {
        if names.is_empty() {
            return Ok(Note::Inserted);
        }
        let names = Box::new(*names.allocator(), names)?;
        Ok(Note::InsertedLinks { names })
    }

    /// The note of a packet that will be taken out and names these identities, but for the packet and its old next
    /// neighbour.
    pub(crate) fn of_deletion(alloc: Global, names: Vec<Id>) -> Result<Note, Refusal>
        ensures noted { IfOk result (λ note. note_of note ≡ with_names names.items nothing) }
        ensures kind { IfOk result (λ note. kind_in note ≡ OfDeletion) }
        ensures fault { IsOkUnless result Refusal.OutOfMemory }
    {
        if names.is_empty() {
            let taken = Box::new(alloc, TakenPacket::awaited(()))?;
            return Ok(Note::Deleted { taken });
        }
        let taken = Box::new(alloc, TakenPacket::awaited(names))?;
        Ok(Note::DeletedLinks { taken })
    }

    /// The note of a group that will be put in, has this identity and names these.
    pub(crate) fn of_addition(alloc: Global, own: Id, names: Vec<Id>) -> Result<Note, Refusal>
        ensures noted { IfOk result (λ note. note_of note ≡ of_named own names.items) }
        ensures kind { IfOk result (λ note. kind_in note ≡ OfAddition) }
        ensures fault { IsOkUnless result Refusal.OutOfMemory }
    {
        if let [name] = &names[..] {
            let names = [*name];
            let added = Box::new(alloc, AddedGroup { own, names })?;
            return Ok(Note::AddedLink { added });
        }
        let added = Box::new(alloc, AddedGroup { own, names })?;
        Ok(Note::Added { added })
    }

    /// The note of a group that will be taken out, has this identity and names these, but for the group and its old next
    /// neighbour.
    pub(crate) fn of_removal(alloc: Global, own: Id, names: Vec<Id>) -> Result<Note, Refusal>
        ensures noted { IfOk result (λ note. note_of note ≡ of_named own names.items) }
        ensures kind { IfOk result (λ note. kind_in note ≡ OfRemoval) }
        ensures fault { IsOkUnless result Refusal.OutOfMemory }
    {
        if let [name] = &names[..] {
            let taken = Box::new(alloc, TakenGroup::awaited(own, [*name]))?;
            return Ok(Note::DroppedLink { taken });
        }
        let taken = Box::new(alloc, TakenGroup::awaited(own, names))?;
        Ok(Note::Dropped { taken })
    }

    /// Has the packet that was taken out, and its old next neighbour.
    pub(crate) fn set_taken_packet(&mut self, packet: Packet, next: Option<Tag>)
        requires { kind_in self.old ≡ OfDeletion }
        ensures noted { note_of self.new ≡ with_taken_packet packet next (note_of self.old) }
        ensures kind { kind_in self.new ≡ OfDeletion }
    {
        match self {
            Note::Deleted { taken } => taken.keep(packet, next),
            Note::DeletedLinks { taken } => taken.keep(packet, next),
            _ => (),
        }
    }

    /// Has the packet that was taken out.
    pub(crate) fn keep_packet(&mut self, packet: Packet)
        requires { kind_in self.old ≡ OfDeletion }
        ensures noted { note_of self.new ≡ with_packet (Some packet) (note_of self.old) }
        ensures kind { kind_in self.new ≡ OfDeletion }
    {
        match self {
            Note::Deleted { taken } => taken.packet = Some(packet),
            Note::DeletedLinks { taken } => taken.packet = Some(packet),
            _ => (),
        }
    }

    /// Has the group that was taken out, and its old next neighbour.
    pub(crate) fn set_taken_group(&mut self, group: Group, next: Option<Tag>)
        requires { kind_in self.old ≡ OfRemoval }
        ensures noted { note_of self.new ≡ with_taken_group group next (note_of self.old) }
        ensures kind { kind_in self.new ≡ OfRemoval }
    {
        match self {
            Note::DroppedLink { taken } => taken.keep(group, next),
            Note::Dropped { taken } => taken.keep(group, next),
            _ => (),
        }
    }

    /// Has the group that was taken out.
    pub(crate) fn keep_group(&mut self, group: Group)
        requires { kind_in self.old ≡ OfRemoval }
        ensures noted { note_of self.new ≡ with_group (Some group) (note_of self.old) }
        ensures kind { kind_in self.new ≡ OfRemoval }
    {
        match self {
            Note::DroppedLink { taken } => taken.group = Some(group),
            Note::Dropped { taken } => taken.group = Some(group),
            _ => (),
        }
    }

    /// Has the old value of a field that was set.
    pub(crate) fn set_old(&mut self, value: u32)
        requires { kind_in self.old ≡ OfField }
        ensures noted { note_of self.new ≡ with_old value (note_of self.old) }
        ensures kind { kind_in self.new ≡ OfField }
    {
        match self {
            Note::Field { old } => *old = value,
            Note::Linked { old, .. } => *old = value,
            Note::Relinked { old, .. } => *old = value,
            _ => (),
        }
    }

    /// A copy of the note.
    pub(crate) fn copy(&self) -> Result<Note, Refusal>
        ensures ok { IfOk result (λ note. note_of note ≡ note_of self.now) }
        ensures kind { IfOk result (λ note. kind_in note ≡ kind_in self.now) }
        ensures fault { IsOkUnless result Refusal.OutOfMemory }
    {
        match *self {
            Note::Field { old } => Ok(Note::Field { old }),
            Note::Linked { old, names } => Ok(Note::Linked { old, names }),
            Note::Relinked { old, ref names } => Ok(Note::Relinked {
                old,
                names: copy_both(names)?,
            }),
            Note::Header { old } => Ok(Note::Header { old }),
            Note::Inserted => Ok(Note::Inserted),
            Note::InsertedLinks { ref names } => Ok(Note::InsertedLinks {
                names: copy_placed_names(names)?,
            }),
            Note::Deleted { ref taken } => Ok(Note::Deleted {
                taken: copy_packet_taken(taken, ())?,
            }),
            Note::DeletedLinks { ref taken } => Ok(Note::DeletedLinks {
                taken: copy_packet_taken(taken, copy_names(&taken.names)?)?,
            }),
            Note::Moved { before } => Ok(Note::Moved { before }),
            Note::AddedLink { ref added } => Ok(Note::AddedLink {
                added: copy_group_added(added, added.names)?,
            }),
            Note::Added { ref added } => Ok(Note::Added {
                added: copy_group_added(added, copy_names(&added.names)?)?,
            }),
            Note::DroppedLink { ref taken } => Ok(Note::DroppedLink {
                taken: copy_group_taken(taken, taken.names)?,
            }),
            Note::Dropped { ref taken } => Ok(Note::Dropped {
                taken: copy_group_taken(taken, copy_names(&taken.names)?)?,
            }),
            Note::Own(own) => Ok(Note::Own(own)),
        }
    }

    /// The old value or number.
    pub(crate) fn old(&self) -> u32
        ensures { result ≡ (note_of self.now).old }
    {
        match self {
            Note::Field { old } => *old,
            Note::Linked { old, .. } => *old,
            Note::Relinked { old, .. } => *old,
            Note::Header { old } => *old,
            Note::Own(own) => own.number,
            _ => 0,
        }
    }

    /// The old next neighbour of what was taken out or moved; none: the end.
    pub(crate) fn before(&self) -> Option<Tag>
        ensures { result ≡ (note_of self.now).before }
    {
        match self {
            Note::Deleted { taken } => taken.before,
            Note::DeletedLinks { taken } => taken.before,
            Note::Moved { before } => *before,
            Note::DroppedLink { taken } => taken.before,
            Note::Dropped { taken } => taken.before,
            _ => None,
        }
    }

    /// The identity of the group that was put in, taken out, renumbered or turned.
    pub(crate) fn own(&self) -> Id
        ensures { result ≡ (note_of self.now).own }
    {
        match self {
            Note::AddedLink { added } => added.own,
            Note::Added { added } => added.own,
            Note::DroppedLink { taken } => taken.own,
            Note::Dropped { taken } => taken.own,
            Note::Own(own) => *own,
            _ => Id {
                country: 0,
                number: 0,
            },
        }
    }

    /// The identities that are named.
    pub(crate) fn names(&self) -> &[Id]
        ensures { result.now ≡ (note_of self.now).names }
    {
        match self {
            Note::Linked { names, .. } => names,
            Note::Relinked { names, .. } => &**names,
            Note::InsertedLinks { names } => names,
            Note::DeletedLinks { taken } => &taken.names,
            Note::AddedLink { added } => &added.names,
            Note::Added { added } => &added.names,
            Note::DroppedLink { taken } => &taken.names,
            Note::Dropped { taken } => &taken.names,
            _ => &[],
        }
    }
}

// A copy of both identities of a link.
fn copy_both(names: &Box<[Id; 2]>) -> Result<Box<[Id; 2]>, Refusal>
    ensures ok { IfOk result (λ copied. copied.value ≡ names.now.value) }
    ensures fault { IsOkUnless result Refusal.OutOfMemory }
{
    Ok(Box::new(*Box::allocator(names), **names)?)
}

// A copy of boxed identities.
fn copy_placed_names(names: &Box<Vec<Id>>) -> Result<Box<Vec<Id>>, Refusal>
    ensures ok { IfOk result (λ copied. copied.value.items ≡ names.now.value.items) }
    ensures fault { IsOkUnless result Refusal.OutOfMemory }
{
    let copied = copy_names(names)?;
    Ok(Box::new(*Box::allocator(names), copied)?)
}
