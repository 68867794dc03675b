//! A packet put in, taken out or moved: done and taken back, and put in or taken out again.

ghost use Rattle.std.specs.Prelude.{◌≡◌, ◌<◌, ◌^◌, Option, IfOk, IsOkUnless};
ghost use Rattle.balise_rules.specs.declared.tag.Tag.{Tag};
ghost use Rattle.balise_rules.specs.Accepting.{Spelt, Unused};
ghost use Rattle.balise_rules.specs.declared.tagged_edit.TaggedEdit.TheVariants.{DeletePacket, InsertPacket, MovePacket};
ghost use Rattle.balise_rules.specs.Notes.{noted};
ghost use Rattle.balise_rules.specs.Packet.{Packet};
ghost use Rattle.balise_plan.specs.Held.{Does};
ghost use Rattle.balise_edits.specs.Notes.{kind_in, kind_of, note_of, OfDeletion, OfInsertion, OfMove};
ghost use Rattle.balise_edits.specs.Standing.{DoesAgain, DoesItem, IsLast, IsNext, TakesBack};

use crate::copying::copy_packet;
use crate::edit::Edit;
use crate::entry::Entry;
use crate::naming::add_packet;
use crate::note::Note;
use balise_plan::{Packet, Plan, Spot};
use balise_rules::{Refusal, Tag};
use std::alloc::Global;

/// Puts a packet in after an anchor, under the tag of a serial, and answers what that notes.
pub(crate) fn insert(
    alloc: Global,
    plan: &mut Plan,
    serial: u32,
    g: Tag,
    t: u32,
    after: Option<Tag>,
    packet: &Packet,
) -> Result<Note, Refusal>
    requires count { plan.old.changes < 2 ^ 63 }
    requires new { Unused serial plan.old.groups }
    requires spelt { Spelt (InsertPacket g t after packet.now) plan.old.groups }
    ensures does { DoesItem (serial, InsertPacket g t after packet.now) plan.old result plan.new }
    ensures noted { IfOk result (λ m. note_of m ≡ noted (InsertPacket g t after packet.now) plan.old.groups) }
    ensures kind { IfOk result (λ m. kind_in m ≡ OfInsertion) }
{
    let Some(group) = plan.group(g) else {
        return Err(Refusal::NoSuchGroup);
    };
    let Some(country) = group.country(t) else {
        return Err(Refusal::NoSuchTelegram);
    };
    let mut names = Vec::new(alloc);
    add_packet(&mut names, &packet.lend(), country)?;
    let note = Note::of_insertion(names)?;
    let copied = copy_packet(packet)?;
    put_after(plan, serial, g, t, after, copied)?;
    Ok(note)
}

// Puts this packet in; where it is refused, it is dropped.
fn put_after(
    plan: &mut Plan,
    serial: u32,
    g: Tag,
    t: u32,
    after: Option<Tag>,
    packet: Packet,
) -> Result<(), Refusal>
    requires count { plan.old.changes < 2 ^ 63 }
    requires new { Unused serial plan.old.groups }
    requires spelt { Spelt (InsertPacket g t after packet) plan.old.groups }
    ensures { DoesItem (serial, InsertPacket g t after packet) plan.old result plan.new }
{
    match plan.put_packet(g, t, Spot::After(after), Tag::Fresh(serial), packet) {
        Ok(()) => Ok(()),
        Err((fault, _packet)) => Err(fault),
    }
}

/// Takes it out again, and is refused only as out of memory.
pub(crate) fn insert_back(plan: &mut Plan, entry: &mut Entry, g: Tag, t: u32) -> Result<(), Refusal>
    requires count { plan.old.changes < 2 ^ 63 }
    requires is { (a : Option Tag) × (x : Packet) × (entry.old.0.1 ≡ InsertPacket g t a x) }
    requires last { IsLast entry.old plan.old.groups }
    ensures { TakesBack entry.old plan.old result entry.new plan.new }
{
    if let Err(fault) = plan.take_packet(g, t, Tag::Fresh(entry.serial())) {
        return Err(fault);
    }
    Ok(())
}

/// Puts it in again, and is refused only as out of memory.
pub(crate) fn insert_again(plan: &mut Plan, entry: &mut Entry) -> Result<(), Refusal>
    requires count { plan.old.changes < 2 ^ 63 }
    requires is { kind_of entry.old.0.1 ≡ OfInsertion }
    requires next { IsNext entry.old plan.old.groups }
    ensures { DoesAgain entry.old plan.old result entry.new plan.new }
{
    let (g, t, after, packet) = match entry.edit() {
        Edit::InsertPacket {
            g,
            t,
            after,
            packet,
        } => (*g, *t, *after, copy_packet(packet)?),
        _ => return Ok(()),
    };
    match put_after(plan, entry.serial(), g, t, after, packet) {
        Ok(()) => Ok(()),
        Err(fault) => Err(fault),
    }
}

/// Takes a packet out, and answers what that notes.
pub(crate) fn delete(
    alloc: Global,
    plan: &mut Plan,
    g: Tag,
    t: u32,
    p: Tag,
) -> Result<Note, Refusal>
    requires count { plan.old.changes < 2 ^ 63 }
    ensures does { Does (DeletePacket g t p) plan.old result plan.new }
    ensures noted { IfOk result (λ m. note_of m ≡ noted (DeletePacket g t p) plan.old.groups) }
    ensures kind { IfOk result (λ m. kind_in m ≡ OfDeletion) }
{
    let mut names = Vec::new(alloc);
    if let Some(telegram) = plan.telegram(g, t) {
        if let Some(packet) = telegram.packet(p) {
            add_packet(&mut names, &packet, telegram.identity().country)?;
        }
    }
    let mut note = Note::of_deletion(alloc, names)?;
    match plan.take_packet(g, t, p) {
        Ok((packet, before)) => {
            note.set_taken_packet(packet, before);
            Ok(note)
        }
        Err(fault) => Err(fault),
    }
}

/// Puts it back in front of its old next neighbour, and is refused only as out of memory.
pub(crate) fn delete_back(
    plan: &mut Plan,
    entry: &mut Entry,
    g: Tag,
    t: u32,
    p: Tag,
) -> Result<(), Refusal>
    requires count { plan.old.changes < 2 ^ 63 }
    requires is { entry.old.0.1 ≡ DeletePacket g t p }
    requires last { IsLast entry.old plan.old.groups }
    ensures { TakesBack entry.old plan.old result entry.new plan.new }
{
    let before = entry.note().before();
    let Some(packet) = entry.take_packet() else {
        return Ok(());
    };
    match plan.put_packet(g, t, Spot::Before(before), p, packet) {
        Ok(()) => Ok(()),
        Err((fault, packet)) => {
            entry.keep_packet(packet);
            Err(fault)
        }
    }
}

/// Takes it out again, and is refused only as out of memory.
pub(crate) fn delete_again(
    plan: &mut Plan,
    entry: &mut Entry,
    g: Tag,
    t: u32,
    p: Tag,
) -> Result<(), Refusal>
    requires count { plan.old.changes < 2 ^ 63 }
    requires is { entry.old.0.1 ≡ DeletePacket g t p }
    requires next { IsNext entry.old plan.old.groups }
    ensures { DoesAgain entry.old plan.old result entry.new plan.new }
{
    match plan.take_packet(g, t, p) {
        Ok((packet, _before)) => {
            entry.keep_packet(packet);
            Ok(())
        }
        Err(fault) => Err(fault),
    }
}

/// Moves a packet to after an anchor, and answers what that notes.
#[inline]
pub(crate) fn shift(
    plan: &mut Plan,
    g: Tag,
    t: u32,
    p: Tag,
    after: Option<Tag>,
) -> Result<Note, Refusal>
    requires count { plan.old.changes < 2 ^ 63 }
    ensures does { Does (MovePacket g t p after) plan.old result plan.new }
    ensures noted { IfOk result (λ m. note_of m ≡ noted (MovePacket g t p after) plan.old.groups) }
    ensures kind { IfOk result (λ m. kind_in m ≡ OfMove) }
{
    match plan.shift_packet(g, t, p, Spot::After(after)) {
        Ok(before) => Ok(Note::Moved { before }),
        Err(fault) => Err(fault),
    }
}

/// Moves it back in front of its old next neighbour, and is refused only as out of memory.
pub(crate) fn shift_back(
    plan: &mut Plan,
    entry: &mut Entry,
    g: Tag,
    t: u32,
    p: Tag,
) -> Result<(), Refusal>
    requires count { plan.old.changes < 2 ^ 63 }
    requires is { (a : Option Tag) × (entry.old.0.1 ≡ MovePacket g t p a) }
    requires last { IsLast entry.old plan.old.groups }
    ensures { TakesBack entry.old plan.old result entry.new plan.new }
{
    let before = entry.note().before();
    match plan.shift_packet(g, t, p, Spot::Before(before)) {
        Ok(_) => Ok(()),
        Err(fault) => Err(fault),
    }
}
