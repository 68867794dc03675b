//! The status of a run over a plan: accepted, refused, or a bad input.

ghost use Rattle.std.specs.Prelude.{◌≡◌};
ghost use Rattle.balise_cli.specs.Statuses.{code_of, status_of};

/// How a run ended: all commands were accepted, some command was refused, or the plan was refused.
#[derive(Clone, Copy, Debug, PartialEq, Eq)]
pub enum Status {
    Accepted,
    SomeRefused,
    BadInput,
}

impl Status {
    /// The status after commands, by whether one was refused.
    pub(crate) fn of_commands(refused: bool) -> Status
        ensures { result ≡ status_of refused }
    {
        if refused {
            return Status::SomeRefused;
        }
        Status::Accepted
    }

    /// The exit status: 0, 1 and 2.
    pub fn code(self) -> u8
        ensures { result ≡ code_of self }
    {
        match self {
            Status::Accepted => 0,
            Status::SomeRefused => 1,
            Status::BadInput => 2,
        }
    }
}
