//! Where an edit lies. This is compared first, since it mostly shows that two edits are apart.

ghost use Rattle.std.specs.Prelude.{◌≡◌, cond};
ghost use Rattle.balise_edits.specs.Edits.{edit_of};
ghost use Rattle.balise_edits.specs.Homes.{at_group, elsewhere, home_number, home_of, in_telegram, limit, low};
ghost use Rattle.balise_edits.specs.Notes.{note_of};

use crate::edit::Edit;
use crate::note::Note;
use balise_rules::Tag;

/// What an edit is of: a telegram, where it noted no identity or some, or a group.
#[derive(Clone, Copy)]
pub(crate) enum Extent {
    Unnamed,
    Named,
    Group,
}

/// Where an edit lies: its group by the last 14 bits of the number in its tag, and its telegram by the last 8 bits of
/// its own. It takes four bytes; two groups may share one.
#[derive(Clone, Copy)]
pub(crate) struct Home {
    group: u16,
    telegram: u8,
    extent: Extent,
}

impl Home {
    /// Where an edit under a serial lies, which noted this.
    pub(crate) fn of(serial: u32, edit: &Edit, note: &Note) -> Home
        ensures { result ≡ home_of serial (edit_of edit.now) (note_of note.now).names }
    {
        let named = note.names().len() != 0;
        match *edit {
            Edit::SetVar { g, t, .. } => Home::in_telegram(g, t, named),
            Edit::SetHead { g, t, .. } => Home::in_telegram(g, t, named),
            Edit::InsertPacket { g, t, .. } => Home::in_telegram(g, t, named),
            Edit::DeletePacket { g, t, .. } => Home::in_telegram(g, t, named),
            Edit::MovePacket { g, t, .. } => Home::in_telegram(g, t, named),
            Edit::AddGroup { .. } => Home::at_group(Tag::Fresh(serial)),
            Edit::DropGroup { g } => Home::at_group(g),
            Edit::Renumber { g, .. } => Home::at_group(g),
            Edit::TurnGroup { g } => Home::at_group(g),
        }
    }

    // In a telegram, with identities or without.
    fn in_telegram(g: Tag, t: u32, named: bool) -> Home
        ensures { result ≡ in_telegram g t named }
    {
        Home {
            group: low(g),
            telegram: (t % 256) as u8,
            extent: if named {
                Extent::Named
            } else {
                Extent::Unnamed
            },
        }
    }

    // At a group.
    fn at_group(g: Tag) -> Home
        ensures { result ≡ at_group g }
    {
        Home {
            group: low(g),
            telegram: 0,
            extent: Extent::Group,
        }
    }

    /// Group and extent as one number, so that many can be looked at together.
    pub(crate) fn number(&self) -> u16
        ensures { result ≡ home_number self.now }
    {
        let extent: u16 = match self.extent {
            Extent::Unnamed => 0,
            Extent::Named => 1,
            Extent::Group => 2,
        };
        extent * 16384 + self.group % 16384
    }

    /// Its group, by the last 14 bits.
    pub(crate) fn group(&self) -> u16
        ensures { result ≡ self.now.group }
    {
        self.group
    }

    /// The least number of a home that may meet it in any group.
    pub(crate) fn limit(&self) -> u16
        ensures { result ≡ limit self.now.extent }
    {
        match self.extent {
            Extent::Unnamed => 49152,
            Extent::Named => 32768,
            Extent::Group => 16384,
        }
    }

    /// Whether two edits are apart by this alone: in two telegrams; or in a telegram of one group and at another group,
    /// without identities.
    #[inline(always)]
    pub(crate) fn is_elsewhere(&self, other: &Home) -> bool
        ensures { result ≡ elsewhere self.now other.now }
    {
        let same_group = self.group == other.group;
        match (self.extent, other.extent) {
            (Extent::Group, Extent::Group) => false,
            (Extent::Group, Extent::Unnamed) => !same_group,
            (Extent::Unnamed, Extent::Group) => !same_group,
            (Extent::Group, Extent::Named) => false,
            (Extent::Named, Extent::Group) => false,
            _ => !(same_group && self.telegram == other.telegram),
        }
    }
}

// The last 14 bits of the number in a tag.
fn low(g: Tag) -> u16
    ensures { result ≡ low g }
{
    match g {
        Tag::Base(n) => (n % 16384) as u16,
        Tag::Fresh(n) => (n % 16384) as u16,
    }
}
