//! What a command is answered.

ghost use Rattle.std.specs.Prelude.{◌≡◌};
ghost use Rattle.balise_text.specs.Answers.{reply_of};
ghost use Rattle.balise_text.specs.Replies.{is_refused};

use balise_rules::Refusal;

/// What a command is answered.
#[derive(Clone, Copy, Debug, PartialEq, Eq)]
pub enum Reply {
    /// The edit was done, under this serial.
    Done(u32),
    /// The edit of this serial was taken back.
    Undone(u32),
    /// The edit of this serial was done again.
    Redone(u32),
    /// The edit of this serial was taken back in place.
    Struck(u32),
    /// Nothing was done, and why.
    Refused(Refusal),
}

impl Reply {
    /// Whether the command was refused.
    pub fn is_refused(self) -> bool
        ensures { result ≡ is_refused (reply_of self) }
    {
        matches!(self, Reply::Refused(_))
    }
}
