//! The entries of a session: those that stand, by rising serial, and those undone or struck.

mod put_back;

ghost use Rattle.std.specs.Prelude.{◌≡◌, ◌+◌, ◌<◌, ◌≤◌, ◌^◌, [], ◌∷◌, ◌++◌, drop, length, map, reverse, take, vec_capacity, vec_len, List, Some, true, IfOk, IsOk, IsOkUnless, OnOk, slice_get};
ghost use Rattle.balise_edits.specs.Anchors.{new_anchor};
ghost use Rattle.balise_edits.specs.Homes.{number_at};
ghost use Rattle.balise_edits.specs.Standing.{IsLast, IsNext};
ghost use Rattle.balise_history.specs.Lists.{entries_re_anchored, is_among, items_of, place_of, Ascends, Gone, PutsBack, TakesOut, top_serial};
ghost use Rattle.balise_rules.specs.Paths as rules;
ghost use Rattle.balise_rules.specs.Session.{back_needs_no_memory, needs_no_memory};
ghost use Rattle.balise_rules.specs.declared.refusal.Refusal.TheVariants.{OutOfMemory};
ghost use Rattle.balise_strike_laws.specs.InSession.{Rising};

use balise_edits::{Entry, Plan, again, re_anchor, take_back};
use balise_rules::Refusal;
use std::alloc::Global;
use std::marker::Model;

/// An entry that was undone or struck, and the rising serials of the later edits that stood after it: they stand on
/// its own anchor meanwhile.
#[derive(Drop)]
pub(crate) struct Undone {
    pub(crate) entry: Entry,
    pub(crate) behind: Vec<u32>,
}

/// The entries that stand and those that were undone or struck, with room for all of them in either list. Beside those
/// that stand are the numbers of their homes, so that a strike goes over two bytes for each.
#[derive(Drop)]
pub(crate) struct History {
    standing: Vec<Entry>,
    homes: Vec<u16>,
    stack: Vec<Undone>,
}

impl Model for History {
    ghost use Rattle.std.specs.Prelude.{◌≡◌, ◌+◌, ◌-◌, ◌≤◌, map, min, reverse, vec_capacity, vec_len};
    ghost use Rattle.balise_edits.specs.Homes.{number_at};
    ghost use Rattle.balise_history.specs.Lists as specs;

    ghost Value = { specs.History };

    ghost view = { λ h. record { standing = h.standing.items; stack = map specs.gone_of (reverse h.stack.items); room = min (min (vec_capacity h.standing) (vec_capacity h.homes)) (vec_capacity h.stack) - (vec_len h.standing + vec_len h.stack) } };

    ghost invariant = { λ h. (h.homes.items ≡ map number_at h.standing.items) × (vec_len h.standing + vec_len h.stack ≤ vec_capacity h.standing) × (vec_len h.standing + vec_len h.stack ≤ vec_capacity h.homes) × (vec_len h.standing + vec_len h.stack ≤ vec_capacity h.stack) };
}

/// The place of a serial among entries: how many have a lower one.
pub(crate) fn place_of(entries: &[Entry], serial: u32) -> usize
    requires { Rising (items_of entries.now) }
    ensures place { result ≡ place_of serial entries.now }
    ensures within { result ≤ length entries.now }
{
    // Mostly it is the highest.
    let count = entries.len();
    if count > 0 && entries[count - 1].serial() < serial {
        return count;
    }
    match entries.binary_search_by_key(&serial, |entry| entry.serial()) {
        Ok(place) => place,
        Err(place) => place,
    }
}

// Whether a serial is among others, which rise.
fn is_among(serials: &[u32], serial: u32) -> bool
    requires { Ascends serials.now }
    ensures { result ≡ is_among serial serials.now }
{
    serials.binary_search(&serial).is_ok()
}

// Anchors the entries of these serials, which rise, on what an entry put in, or with `on` false on its own anchor.
fn re_anchor_all(entries: &mut [Entry], serials: &[u32], entry: &Entry, on: bool)
    requires { Ascends serials.now }
    ensures { entries.new ≡ entries_re_anchored (new_anchor on entry.now.0) serials.now entries.old }
{
    for later in entries.iter_mut() {
        if is_among(serials, later.serial()) {
            re_anchor(later, entry, on);
        }
    }
}

// Anchors those that stand from a place on. Where there are no serials nothing is looked at.
fn re_anchor_from(standing: &mut Vec<Entry>, place: usize, serials: &[u32], entry: &Entry, on: bool)
    requires within { place ≤ vec_len standing.old }
    requires rising { Ascends serials.now }
    ensures items { standing.new.items ≡ take place standing.old.items ++ entries_re_anchored (new_anchor on entry.now.0) serials.now (drop place standing.old.items) }
    ensures len { vec_len standing.new ≡ vec_len standing.old }
    ensures capacity { vec_capacity standing.new ≡ vec_capacity standing.old }
{
    if serials.is_empty() {
        return;
    }
    re_anchor_all(&mut standing[place..], serials, entry, on);
}

impl History {
    /// No entries. Takes no memory.
    pub(crate) fn new(alloc: Global) -> History
        ensures standing { result.standing ≡ [] }
        ensures stack { result.stack ≡ [] }
    {
        History {
            standing: Vec::new(alloc),
            homes: Vec::new(alloc),
            stack: Vec::new(alloc),
        }
    }

    /// Where its memory comes from.
    pub(crate) fn allocator(&self) -> Global {
        *self.standing.allocator()
    }

    /// The entries that stand.
    pub(crate) fn standing(&self) -> &[Entry]
        ensures { result.now ≡ self.now.standing }
    {
        &self.standing
    }

    /// The numbers of the homes of those that stand.
    pub(crate) fn homes(&self) -> &[u16]
        ensures { result.now ≡ map number_at self.now.standing }
    {
        &self.homes
    }

    /// How many were undone or struck.
    pub(crate) fn count_undone(&self) -> usize
        ensures { result ≡ length self.now.stack }
    {
        self.stack.len()
    }

    /// The serials of those undone or struck, the last one last.
    pub(crate) fn undone(&self) -> Result<Vec<u32>, Refusal>
        ensures ok { IfOk result (λ v. v.items ≡ reverse (map (λ r. r.0.0.0) self.now.stack)) }
        ensures fault { IsOkUnless result OutOfMemory }
    {
        let mut serials = Vec::new(*self.stack.allocator());
        for undone in &self.stack {
            serials.push(undone.entry.serial())?;
        }
        Ok(serials)
    }

    /// The serial of the entry that was undone or struck last.
    pub(crate) fn top(&self) -> Option<u32>
        ensures { result ≡ top_serial self.now.stack }
    {
        match self.stack.last() {
            Some(undone) => Some(undone.entry.serial()),
            None => None,
        }
    }

    /// Makes room for one entry more in either list.
    pub(crate) fn reserve(&mut self) -> Result<(), Refusal>
        ensures room { OnOk result (0 < self.new.room) }
        ensures standing { self.new.standing ≡ self.old.standing }
        ensures stack { self.new.stack ≡ self.old.stack }
        ensures fault { IsOkUnless result OutOfMemory }
    {
        let undone = self.stack.len();
        let standing = self.standing.len();
        self.standing.reserve(undone.saturating_add(1))?;
        self.homes.reserve(undone.saturating_add(1))?;
        self.stack.reserve(standing.saturating_add(1))?;
        Ok(())
    }

    /// Adds an entry after those that stand. What was undone or struck is dropped.
    #[inline(always)]
    pub(crate) fn push(&mut self, entry: Entry)
        requires { 0 < self.old.room }
        ensures standing { self.new.standing ≡ self.old.standing ++ entry ∷ [] }
        ensures stack { self.new.stack ≡ [] }
    {
        self.stack.clear();
        self.homes.push(entry.home_number()).unwrap();
        self.standing.push(entry).unwrap();
    }
}

impl History {
    /// Takes the entry at a place back and moves it to the stack, with the serials of those after it, which get its
    /// anchor. If it is out of memory, which is possible only where the entry's edit takes some, all stays.
    pub(crate) fn take_out(
        &mut self,
        plan: &mut Plan,
        place: usize,
        behind: Vec<u32>,
    ) -> Result<(), Refusal>
        requires count { plan.old.changes < 2 ^ 63 }
        requires within { place < length self.old.standing }
        requires last { (e : rules.Entry) → slice_get self.old.standing place ≡ Some e → IsLast e plan.old.groups }
        requires rising { Ascends behind.items }
        ensures takes { TakesOut place behind.items plan.old self.old result plan.new self.new }
        ensures always { (e : rules.Entry) → slice_get self.old.standing place ≡ Some e → back_needs_no_memory (Some e.0) ≡ true → IsOk result }
    {
        take_back(plan, &mut self.standing[place])?;
        let entry = self.standing.remove(place);
        // The number that is taken out has no further use.
        let _ = self.homes.remove(place);
        re_anchor_from(&mut self.standing, place, &behind, &entry, false);
        self.stack.push(Undone { entry, behind }).unwrap();
        Ok(())
    }

    /// Does the top of the stack again and puts it at a place among those that stand; those that stood after it are
    /// anchored on what it puts in, as before. If it is out of memory, which is possible only where the entry's edit takes some,
    /// all stays.
    pub(crate) fn put_back(&mut self, plan: &mut Plan, place: usize) -> Result<(), Refusal>
        ghost r: { Gone }
        requires count { plan.old.changes < 2 ^ 63 }
        requires within { place ≤ length self.old.standing }
        requires stack { (rs : List Gone) × (self.old.stack ≡ r ∷ rs) }
        requires next { IsNext r.0 plan.old.groups }
        requires rising { Ascends r.1 }
        ensures puts { PutsBack place r plan.old self.old result plan.new self.new }
        ensures always { needs_no_memory (Some r.0.0) ≡ true → IsOk result }
    {
        let top = self.stack.len() - 1;
        let undone = &mut self.stack[top];
        again(plan, &mut undone.entry)?;
        let Undone { entry, behind } = self.stack.remove(top);
        re_anchor_from(&mut self.standing, place, &behind, &entry, true);
        self.homes.insert(place, entry.home_number()).unwrap();
        self.standing.insert(place, entry).unwrap();
        Ok(())
    }
}
