//! The places that an entry changes and needs, each on a line: one by one, and as a test of one place against all.

ghost use Rattle.std.specs.Prelude.{◌≡◌, option_map, slice_get};
ghost use Rattle.balise_rules.specs.Paths.{changes, meets_any};
ghost use Rattle.balise_rules.specs.Behind.{anchored_on, put_in};
ghost use Rattle.balise_edits.specs.Places.{path_of};
ghost use Rattle.balise_edits.specs.Needs.{just_behind, needed_names, needed_place};

use crate::edit::Edit;
use crate::entry::Entry;
use crate::path::{InGroup, InPacket, Path};
use balise_rules::{Id, Tag, Var};

impl Entry {
    /// The `i`-th of the places that it changes, from 0. There are four at most.
    #[inline(always)]
    pub(crate) fn changed(&self, i: usize) -> Option<Path>
        ensures { option_map path_of result ≡ slice_get (changes self.now) i }
    {
        let fresh = Tag::Fresh(self.serial);
        match (&self.done.edit, i) {
            (
                Edit::SetVar {
                    g,
                    t,
                    p,
                    var,
                    k,
                    ..
                },
                0,
            ) => Some(Path::packet(*g, *t, *p, InPacket::Field(*var, *k))),
            (Edit::SetHead { g, t, var, .. }, 0) => Some(Path::head(*g, *t, *var)),
            (Edit::InsertPacket { g, t, .. }, 0) => {
                Some(Path::packet(*g, *t, fresh, InPacket::Whole))
            }
            (Edit::InsertPacket { g, t, after, .. }, 1) => Some(Path::behind(*g, *t, *after)),
            (Edit::DeletePacket { g, t, p }, 0) => Some(Path::packet(*g, *t, *p, InPacket::Whole)),
            (Edit::DeletePacket { g, t, .. }, 1) => {
                Some(Path::in_front(*g, *t, self.done.note.before()))
            }
            (Edit::MovePacket { g, t, p, .. }, 0) => {
                Some(Path::packet(*g, *t, *p, InPacket::Front))
            }
            (Edit::MovePacket { g, t, p, .. }, 1) => {
                Some(Path::packet(*g, *t, *p, InPacket::After))
            }
            (Edit::MovePacket { g, t, .. }, 2) => Some(Path::in_front(
                *g,
                *t,
                self.done.note.before(),
            )),
            (Edit::MovePacket { g, t, after, .. }, 3) => Some(Path::behind(*g, *t, *after)),
            (Edit::AddGroup { .. }, 0) => Some(Path::Group(fresh, InGroup::Whole)),
            (Edit::AddGroup { after, .. }, 1) => Some(Path::behind_group(*after)),
            (Edit::AddGroup { .. }, 2) => Some(Path::Identity(self.done.note.own())),
            (Edit::DropGroup { g }, 0) => Some(Path::Group(*g, InGroup::Whole)),
            (Edit::DropGroup { .. }, 1) => Some(Path::in_front_of_group(self.done.note.before())),
            (Edit::DropGroup { .. }, 2) => Some(Path::Identity(self.done.note.own())),
            (Edit::Renumber { g, .. }, 0) => Some(Path::Group(*g, InGroup::Name)),
            (Edit::Renumber { .. }, 1) => Some(Path::Identity(self.done.note.own())),
            (Edit::Renumber { number, .. }, 2) => Some(Path::Identity(Id {
                country: self.done.note.own().country,
                number: *number,
            })),
            (Edit::TurnGroup { g }, 0) => Some(Path::Group(*g, InGroup::Turn)),
            (Edit::TurnGroup { .. }, 1) => Some(Path::Identity(self.done.note.own())),
            _ => None,
        }
    }

    /// Whether a place meets one that it changes: the same table, one place after another.
    pub(crate) fn touches(&self, place: &Path) -> bool
        ensures { result ≡ meets_any (path_of place.now) (changes self.now) }
    {
        let fresh = Tag::Fresh(self.serial);
        match &self.done.edit {
            Edit::SetVar {
                g,
                t,
                p,
                var,
                k,
                ..
            } => place.meets(&Path::packet(*g, *t, *p, InPacket::Field(*var, *k))),
            Edit::SetHead { g, t, var, .. } => place.meets(&Path::head(*g, *t, *var)),
            Edit::InsertPacket { g, t, after, .. } => {
                place.meets(&Path::packet(*g, *t, fresh, InPacket::Whole))
                    | place.meets(&Path::behind(*g, *t, *after))
            }
            Edit::DeletePacket { g, t, p } => {
                place.meets(&Path::packet(*g, *t, *p, InPacket::Whole))
                    | place.meets(&Path::in_front(*g, *t, self.done.note.before()))
            }
            Edit::MovePacket { g, t, p, after } => {
                place.meets(&Path::packet(*g, *t, *p, InPacket::Front))
                    | place.meets(&Path::packet(*g, *t, *p, InPacket::After))
                    | place.meets(&Path::in_front(*g, *t, self.done.note.before()))
                    | place.meets(&Path::behind(*g, *t, *after))
            }
            Edit::AddGroup { after, .. } => {
                place.meets(&Path::Group(fresh, InGroup::Whole))
                    | place.meets(&Path::behind_group(*after))
                    | place.meets(&Path::Identity(self.done.note.own()))
            }
            Edit::DropGroup { g } => {
                place.meets(&Path::Group(*g, InGroup::Whole))
                    | place.meets(&Path::in_front_of_group(self.done.note.before()))
                    | place.meets(&Path::Identity(self.done.note.own()))
            }
            Edit::Renumber { g, number } => {
                let own = self.done.note.own();
                let new = Id {
                    country: own.country,
                    number: *number,
                };
                place.meets(&Path::Group(*g, InGroup::Name))
                    | place.meets(&Path::Identity(own))
                    | place.meets(&Path::Identity(new))
            }
            Edit::TurnGroup { g } => {
                place.meets(&Path::Group(*g, InGroup::Turn))
                    | place.meets(&Path::Identity(self.done.note.own()))
            }
        }
    }

    /// The place that it needs as it is, if it needs one beside identities.
    pub(crate) fn needed(&self) -> Option<Path>
        ensures { option_map path_of result ≡ needed_place self.now }
    {
        match &self.done.edit {
            Edit::SetVar {
                g,
                t,
                p,
                var,
                k,
                ..
            } => {
                if Var::QDir == *var {
                    Some(Path::Group(*g, InGroup::Turn))
                } else if Var::QLinkorientation == *var {
                    Some(Path::packet(*g, *t, *p, InPacket::Field(Var::NidBg, *k)))
                } else {
                    None
                }
            }
            Edit::SetHead { g, var, .. } => {
                if Var::MDup == *var {
                    Some(Path::Group(*g, InGroup::Turn))
                } else {
                    None
                }
            }
            Edit::InsertPacket { g, .. } => Some(Path::Group(*g, InGroup::Turn)),
            Edit::DeletePacket { g, .. } => Some(Path::Group(*g, InGroup::Turn)),
            _ => None,
        }
    }

    /// The identities that it needs as they are.
    pub(crate) fn named(&self) -> &[Id]
        ensures { result.now ≡ needed_names self.now }
    {
        match &self.done.edit {
            Edit::SetVar { var, .. } => {
                if Var::QDir == *var {
                    &[]
                } else if Var::QLinkorientation == *var {
                    self.done.note.names()
                } else if Var::NidBg == *var {
                    self.done.note.names()
                } else {
                    &[]
                }
            }
            Edit::InsertPacket { .. } => self.done.note.names(),
            Edit::DeletePacket { .. } => self.done.note.names(),
            Edit::AddGroup { .. } => self.done.note.names(),
            Edit::DropGroup { .. } => self.done.note.names(),
            _ => &[],
        }
    }

    /// The place of what it puts in, if it puts something in.
    pub(crate) fn put_in(&self) -> Option<Path>
        ensures { option_map path_of result ≡ put_in self.now.0 }
    {
        let fresh = Tag::Fresh(self.serial);
        match &self.done.edit {
            Edit::InsertPacket { g, t, .. } => Some(Path::packet(*g, *t, fresh, InPacket::Whole)),
            Edit::AddGroup { .. } => Some(Path::Group(fresh, InGroup::Whole)),
            _ => None,
        }
    }

    /// What comes directly after that.
    pub(crate) fn behind_it(&self) -> Option<Path>
        ensures { option_map path_of result ≡ just_behind (put_in self.now.0) }
    {
        let fresh = Tag::Fresh(self.serial);
        match &self.done.edit {
            Edit::InsertPacket { g, t, .. } => Some(Path::packet(*g, *t, fresh, InPacket::After)),
            Edit::AddGroup { .. } => Some(Path::Group(fresh, InGroup::After)),
            _ => None,
        }
    }

    /// The place of the tag that it is anchored on, if it is anchored on one.
    pub(crate) fn anchored_on(&self) -> Option<Path>
        ensures { option_map path_of result ≡ anchored_on self.now.0 }
    {
        match &self.done.edit {
            Edit::InsertPacket {
                g,
                t,
                after: Some(a),
                ..
            } => Some(Path::packet(*g, *t, *a, InPacket::Whole)),
            Edit::MovePacket {
                g,
                t,
                after: Some(a),
                ..
            } => Some(Path::packet(*g, *t, *a, InPacket::Whole)),
            Edit::AddGroup { after: Some(a), .. } => Some(Path::Group(*a, InGroup::Whole)),
            _ => None,
        }
    }
}
