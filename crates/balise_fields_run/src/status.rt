//! The status of a run of digits or fields: whether some item was refused.

ghost use Rattle.std.specs.Prelude.{◌≡◌};
ghost use Rattle.balise_fields_run.specs.Statuses.{code_of, status_of};

/// How a run ended: all was explained or encoded, or some item was refused.
#[derive(Clone, Copy, Debug, PartialEq, Eq)]
pub enum Status {
    AllDone,
    SomeRefused,
}

impl Status {
    /// The status, by whether an item was refused.
    pub(crate) fn of_refused(refused: bool) -> Status
        ensures { result ≡ status_of refused }
    {
        if refused {
            return Status::SomeRefused;
        }
        Status::AllDone
    }

    /// The exit status: 0 and 1.
    pub fn code(self) -> u8
        ensures { result ≡ code_of self }
    {
        match self {
            Status::AllDone => 0,
            Status::SomeRefused => 1,
        }
    }
}
