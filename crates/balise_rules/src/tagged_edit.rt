//! The nine edits, by tags, for any type of an inserted packet and of an added telegram.

ghost use Rattle.std.specs.Prelude.{◌≡◌, IfErr, IfOk, Err, Ok};
ghost use Rattle.balise_rules.specs.Behind.{anchor_of, anchored};
ghost use Rattle.balise_rules.specs.Parts.{MadeBy, FailsBy, with_parts};

use crate::refusal::Refusal;
use crate::tag::Tag;
use crate::variable::Var;

/// An edit of a plan, by tags: `g` of a group, `t` of a telegram, `p` of a packet. Something is put directly after the
/// anchor `after`, or at the first place if it is none. A packet that is put in is given as a `P`, the telegrams of a
/// group as a `T`.
#[derive(Drop)]
pub enum TaggedEdit<P, T> {
    /// Sets occurrence `k`, from 0, of a variable of a packet.
    SetVar {
        g: Tag,
        t: u32,
        p: Tag,
        var: Var,
        k: u32,
        value: u32,
    },
    /// Sets M_DUP, M_MCOUNT or Q_LINK of a header.
    SetHead {
        g: Tag,
        t: u32,
        var: Var,
        value: u32,
    },
    /// Puts a packet in; its tag is `Fresh` with the edit's serial.
    InsertPacket {
        g: Tag,
        t: u32,
        after: Option<Tag>,
        packet: P,
    },
    /// Takes a packet out.
    DeletePacket {
        g: Tag,
        t: u32,
        p: Tag,
    },
    /// Moves a packet within its telegram.
    MovePacket {
        g: Tag,
        t: u32,
        p: Tag,
        after: Option<Tag>,
    },
    /// Puts a group in, by the bits of its telegrams; its tag is `Fresh` with the edit's serial.
    AddGroup {
        after: Option<Tag>,
        telegrams: T,
    },
    /// Takes a group out.
    DropGroup {
        g: Tag,
    },
    /// Gives a group another NID_BG, in its headers and wherever it is named.
    Renumber {
        g: Tag,
        number: u32,
    },
    /// Turns a group round.
    TurnGroup {
        g: Tag,
    },
}

impl<P, T> TaggedEdit<P, T> {
    /// What it is anchored on; none for the first place, and where it has no anchor.
    pub fn anchor(&self) -> Option<Tag>
        ensures { result ≡ anchor_of self.now }
    {
        match self {
            TaggedEdit::InsertPacket { after, .. } => *after,
            TaggedEdit::MovePacket { after, .. } => *after,
            TaggedEdit::AddGroup { after, .. } => *after,
            _ => None,
        }
    }

    /// Anchors it on something else, where it has an anchor.
    pub fn set_anchor(&mut self, to: Option<Tag>)
        ensures { self.new ≡ anchored to self.old }
    {
        match self {
            TaggedEdit::InsertPacket { after, .. } => *after = to,
            TaggedEdit::MovePacket { after, .. } => *after = to,
            TaggedEdit::AddGroup { after, .. } => *after = to,
            _ => {}
        }
    }

    /// The edit, with what it puts in lent.
    pub fn as_ref(&self) -> TaggedEdit<&P, &T>
        ensures { with_parts (λ p. p.now) (λ t. t.now) result ≡ self.now }
    {
        match *self {
            TaggedEdit::SetVar {
                g,
                t,
                p,
                var,
                k,
                value,
            } => TaggedEdit::SetVar {
                g,
                t,
                p,
                var,
                k,
                value,
            },
            TaggedEdit::SetHead { g, t, var, value } => TaggedEdit::SetHead { g, t, var, value },
            TaggedEdit::InsertPacket {
                g,
                t,
                after,
                ref packet,
            } => TaggedEdit::InsertPacket {
                g,
                t,
                after,
                packet,
            },
            TaggedEdit::DeletePacket { g, t, p } => TaggedEdit::DeletePacket { g, t, p },
            TaggedEdit::MovePacket { g, t, p, after } => TaggedEdit::MovePacket { g, t, p, after },
            TaggedEdit::AddGroup {
                after,
                ref telegrams,
            } => TaggedEdit::AddGroup { after, telegrams },
            TaggedEdit::DropGroup { g } => TaggedEdit::DropGroup { g },
            TaggedEdit::Renumber { g, number } => TaggedEdit::Renumber { g, number },
            TaggedEdit::TurnGroup { g } => TaggedEdit::TurnGroup { g },
        }
    }

    /// The edit with what `packet` makes of a packet that is put in, in the telegram of this group, and `telegrams` of
    /// the telegrams of a group.
    pub fn try_map<
        Q,
        U,
        E,
        F: FnOnce(Tag, u32, P) -> Result<Q, E> + Drop,
        G: FnOnce(T) -> Result<U, E> + Drop,
    >(self, make_packet: F, make_telegrams: G) -> Result<TaggedEdit<Q, U>, E>
        requires packet { F.IsAlwaysCallable make_packet }
        requires telegrams { G.IsAlwaysCallable make_telegrams }
        ensures ok { IfOk result (λ e. MadeBy (λ g t x y. F.post make_packet g t x (Ok y)) (λ x y. G.post make_telegrams x (Ok y)) self e) }
        ensures fault { IfErr result (λ r. FailsBy (λ g t x. F.post make_packet g t x (Err r)) (λ x. G.post make_telegrams x (Err r)) self) }
    {
        match self {
            TaggedEdit::SetVar {
                g,
                t,
                p,
                var,
                k,
                value,
            } => Ok(TaggedEdit::SetVar {
                g,
                t,
                p,
                var,
                k,
                value,
            }),
            TaggedEdit::SetHead { g, t, var, value } => Ok(TaggedEdit::SetHead {
                g,
                t,
                var,
                value,
            }),
            TaggedEdit::InsertPacket {
                g,
                t,
                after,
                packet,
            } => Ok(TaggedEdit::InsertPacket {
                g,
                t,
                after,
                packet: make_packet(g, t, packet)?,
            }),
            TaggedEdit::DeletePacket { g, t, p } => Ok(TaggedEdit::DeletePacket { g, t, p }),
            TaggedEdit::MovePacket { g, t, p, after } => {
                Ok(TaggedEdit::MovePacket { g, t, p, after })
            }
            TaggedEdit::AddGroup { after, telegrams } => Ok(TaggedEdit::AddGroup {
                after,
                telegrams: make_telegrams(telegrams)?,
            }),
            TaggedEdit::DropGroup { g } => Ok(TaggedEdit::DropGroup { g }),
            TaggedEdit::Renumber { g, number } => Ok(TaggedEdit::Renumber { g, number }),
            TaggedEdit::TurnGroup { g } => Ok(TaggedEdit::TurnGroup { g }),
        }
    }
}
