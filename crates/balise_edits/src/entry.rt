//! An edit with its serial and what it noted.

mod content;
mod places;

ghost use Rattle.std.specs.Prelude.{◌≡◌, IfOk, IsOkUnless};
ghost use Rattle.balise_edits.specs.Anchors.{hung_on};
ghost use Rattle.balise_edits.specs.Edits.{edit_of};
ghost use Rattle.balise_edits.specs.Homes.{home_of, number_at};
ghost use Rattle.balise_edits.specs.Notes.{note_of, Suits};

use crate::edit::{Edit, copy_edit};
use crate::home::Home;
use crate::note::Note;
use balise_rules::{Refusal, Tag};
use std::alloc::Global;
use std::marker::Model;

/// An edit that was done, its serial, and what it noted of the plan before it. Edit and note have a place of their own,
/// so that a list of entries is short: it is gone through, and entries are moved in it.
#[derive(Drop)]
pub struct Entry {
    serial: u32,
    home: Home,
    done: Box<Done>,
}

/// An edit, and what it noted of the plan before it.
#[derive(Drop)]
pub(crate) struct Done {
    pub(crate) edit: Edit,
    pub(crate) note: Note,
}

/// A place for an edit that isn't done yet: the note stands for none.
#[inline(always)]
pub(crate) fn placed(alloc: Global, edit: Edit) -> Result<Box<Done>, Refusal>
    ensures ok { IfOk result (λ done. done.value.edit ≡ edit) }
    ensures fault { IsOkUnless result Refusal.OutOfMemory }
{
    let note = Note::Header { old: 0 };
    Ok(Box::new(alloc, Done { edit, note })?)
}

impl Model for Entry {
    ghost use Rattle.balise_rules.specs.Paths as rules;
    ghost use Rattle.balise_edits.specs.Edits.{edit_of};
    ghost use Rattle.balise_edits.specs.Homes.{home_of};
    ghost use Rattle.balise_edits.specs.Notes.{note_of, Suits};
    ghost use Rattle.std.specs.Prelude.{◌≡◌};

    ghost Value = { rules.Entry };

    ghost view = { λ e. ((e.serial, edit_of e.done.value.edit), note_of e.done.value.note) };

    ghost invariant = { λ e. Suits (edit_of e.done.value.edit) e.done.value.note × (e.home ≡ home_of e.serial (edit_of e.done.value.edit) (note_of e.done.value.note).names) };
}

impl Entry {
    /// An entry of an edit and a note of its kind.
    #[inline(always)]
    pub(crate) fn new(serial: u32, done: Box<Done>) -> Entry
        requires { Suits (edit_of done.value.edit) done.value.note }
        ensures { result ≡ ((serial, edit_of done.value.edit), note_of done.value.note) }
    {
        let home = Home::of(serial, &done.edit, &done.note);
        Entry { serial, home, done }
    }

    /// A copy of the entry.
    pub fn copy(&self) -> Result<Entry, Refusal>
        ensures ok { IfOk result (λ entry. entry ≡ self.now) }
        ensures fault { IsOkUnless result Refusal.OutOfMemory }
    {
        let mut done = placed(self.allocator(), copy_edit(&self.done.edit)?)?;
        done.note = self.done.note.copy()?;
        Ok(Entry {
            serial: self.serial,
            home: self.home,
            done,
        })
    }

    /// What it takes memory from.
    pub(crate) fn allocator(&self) -> Global {
        *Box::allocator(&self.done)
    }

    /// Its serial.
    pub fn serial(&self) -> u32
        ensures { result ≡ self.now.0.0 }
    {
        self.serial
    }

    /// Where its edit lies.
    #[inline(always)]
    pub(crate) fn home(&self) -> &Home
        ensures { result.now ≡ home_of self.now.0.0 self.now.0.1 self.now.1.names }
    {
        &self.home
    }

    /// Where its edit lies, as a number for `count_apart`.
    pub fn home_number(&self) -> u16
        ensures { result ≡ number_at self.now }
    {
        self.home.number()
    }

    /// Its edit.
    pub fn edit(&self) -> &Edit
        ensures { edit_of result.now ≡ self.now.0.1 }
    {
        &self.done.edit
    }

    /// Anchors its edit on something else, where it has an anchor. All else stays.
    #[tactic(auto, using(crate::proofs::Elsewhere::home_anchored))]
    pub(crate) fn set_anchor(&mut self, to: Option<Tag>)
        ensures { self.new ≡ hung_on to self.old }
    {
        self.done.edit.set_anchor(to);
    }

    /// What it noted.
    pub(crate) fn note(&self) -> &Note
        ensures { note_of result.now ≡ self.now.1 }
    {
        &self.done.note
    }
}
