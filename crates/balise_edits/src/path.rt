//! A place of a plan, and whether two places meet.

ghost use Rattle.std.specs.Prelude.{◌≡◌, [], ◌∷◌};
ghost use Rattle.balise_rules.specs.Paths.{anchor, meet, neighbour, After, At, Front, Head, Nth, Of};
ghost use Rattle.balise_edits.specs.Places.{in_group, in_packet, in_telegram, path_of};

use balise_rules::{Id, Tag, Var};

/// A place of a plan: what an edit changes, or needs as it is. It leads from a group down to what it stands for.
#[derive(Clone, Copy, PartialEq, Eq)]
pub enum Path {
    /// A group, or a part of it.
    Group(Tag, InGroup),
    /// What comes directly after the start of the plan.
    First,
    /// What comes directly before the end of the plan.
    Last,
    /// An identity, whoever has or names it.
    Identity(Id),
}

/// A group, or a part of it.
#[derive(Clone, Copy, PartialEq, Eq)]
pub enum InGroup {
    /// The whole group, with its two sides.
    Whole,
    /// What comes directly after it.
    After,
    /// What comes directly before it.
    Front,
    /// Its orientation.
    Turn,
    /// Its number.
    Name,
    /// A telegram's part, by the telegram's tag.
    Telegram(u32, InTelegram),
}

/// A part of a telegram.
#[derive(Clone, Copy, PartialEq, Eq)]
pub enum InTelegram {
    /// A field of the header.
    Head(Var),
    /// What comes directly after the header: the first packet's place.
    First,
    /// What comes directly before packet 255: the last packet's place.
    Last,
    /// A packet, or a part of it.
    Packet(Tag, InPacket),
}

/// A packet, or a part of it.
#[derive(Clone, Copy, PartialEq, Eq)]
pub enum InPacket {
    /// The whole packet, with its two sides.
    Whole,
    /// What comes directly after it.
    After,
    /// What comes directly before it.
    Front,
    /// An occurrence, from 0, of a variable.
    Field(Var, u32),
}

impl InPacket {
    // Whether one lies in the other.
    #[inline(always)]
    fn meets(&self, other: &InPacket) -> bool
        ensures { result ≡ meet (in_packet self.now) (in_packet other.now) }
    {
        match (self, other) {
            (InPacket::Whole, _) => true,
            (_, InPacket::Whole) => true,
            (InPacket::After, InPacket::After) => true,
            (InPacket::Front, InPacket::Front) => true,
            (InPacket::Field(var, k), InPacket::Field(other, l)) => var == other && k == l,
            _ => false,
        }
    }
}

impl InTelegram {
    // Whether one lies in the other.
    #[inline(always)]
    fn meets(&self, other: &InTelegram) -> bool
        ensures { result ≡ meet (in_telegram self.now) (in_telegram other.now) }
    {
        match (self, other) {
            (InTelegram::Head(var), InTelegram::Head(other)) => var == other,
            (InTelegram::First, InTelegram::First) => true,
            (InTelegram::Last, InTelegram::Last) => true,
            (InTelegram::Packet(p, part), InTelegram::Packet(q, other)) => {
                p == q && part.meets(other)
            }
            _ => false,
        }
    }
}

impl InGroup {
    // Whether one lies in the other.
    #[inline(always)]
    fn meets(&self, other: &InGroup) -> bool
        ensures { result ≡ meet (in_group self.now) (in_group other.now) }
    {
        match (self, other) {
            (InGroup::Whole, _) => true,
            (_, InGroup::Whole) => true,
            (InGroup::After, InGroup::After) => true,
            (InGroup::Front, InGroup::Front) => true,
            (InGroup::Turn, InGroup::Turn) => true,
            (InGroup::Name, InGroup::Name) => true,
            (InGroup::Telegram(t, part), InGroup::Telegram(u, other)) => {
                t == u && part.meets(other)
            }
            _ => false,
        }
    }
}

impl Path {
    /// A field of a header.
    #[inline(always)]
    pub(crate) fn head(g: Tag, t: u32, var: Var) -> Path
        ensures { path_of result ≡ At g ∷ Nth t ∷ Head ∷ Of var ∷ [] }
    {
        Path::Group(g, InGroup::Telegram(t, InTelegram::Head(var)))
    }

    /// A packet, or a part of it.
    #[inline(always)]
    pub(crate) fn packet(g: Tag, t: u32, p: Tag, part: InPacket) -> Path
        ensures { path_of result ≡ At g ∷ Nth t ∷ At p ∷ in_packet part }
    {
        Path::Group(g, InGroup::Telegram(t, InTelegram::Packet(p, part)))
    }

    /// What comes directly after an anchor in a telegram.
    #[inline(always)]
    pub(crate) fn behind(g: Tag, t: u32, after: Option<Tag>) -> Path
        ensures { path_of result ≡ At g ∷ Nth t ∷ anchor after ∷ After ∷ [] }
    {
        match after {
            Some(p) => Path::packet(g, t, p, InPacket::After),
            None => Path::Group(g, InGroup::Telegram(t, InTelegram::First)),
        }
    }

    /// What comes directly before a neighbour in a telegram.
    #[inline(always)]
    pub(crate) fn in_front(g: Tag, t: u32, before: Option<Tag>) -> Path
        ensures { path_of result ≡ At g ∷ Nth t ∷ neighbour before ∷ Front ∷ [] }
    {
        match before {
            Some(p) => Path::packet(g, t, p, InPacket::Front),
            None => Path::Group(g, InGroup::Telegram(t, InTelegram::Last)),
        }
    }

    /// What comes directly after an anchor in the plan.
    #[inline(always)]
    pub(crate) fn behind_group(after: Option<Tag>) -> Path
        ensures { path_of result ≡ anchor after ∷ After ∷ [] }
    {
        match after {
            Some(g) => Path::Group(g, InGroup::After),
            None => Path::First,
        }
    }

    /// What comes directly before a neighbour in the plan.
    #[inline(always)]
    pub(crate) fn in_front_of_group(before: Option<Tag>) -> Path
        ensures { path_of result ≡ neighbour before ∷ Front ∷ [] }
    {
        match before {
            Some(g) => Path::Group(g, InGroup::Front),
            None => Path::Last,
        }
    }

    /// Whether two places meet: one is the other, or lies in it.
    #[inline(always)]
    pub(crate) fn meets(&self, other: &Path) -> bool
        ensures { result ≡ meet (path_of self.now) (path_of other.now) }
    {
        match (self, other) {
            (Path::Group(g, part), Path::Group(h, other)) => g == h && part.meets(other),
            (Path::First, Path::First) => true,
            (Path::Last, Path::Last) => true,
            (Path::Identity(id), Path::Identity(other)) => id == other,
            _ => false,
        }
    }
}
