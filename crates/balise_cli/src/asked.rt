//! What is asked of a run.

ghost use Rattle.std.specs.Prelude.{◌≡◌};
ghost use Rattle.balise_cli.specs.Asking.{asked_by, facts_asked};

use balise_arguments::Flags;
use balise_facts::Facts;

/// What is asked of a run.
#[derive(Clone, Copy)]
pub struct Asked {
    /// No reply to a command that was accepted.
    pub quiet: bool,
    /// No command after one that was refused.
    pub stop: bool,
    /// What is printed after the replies.
    pub closing: Closing,
}

/// What is printed after the replies.
#[derive(Clone, Copy)]
pub enum Closing {
    /// The plan, and the journal and the view where they are asked for.
    Plan { journal: bool, view: bool },
    /// Facts of the session.
    Facts(Facts),
}

/// What the flags ask for.
pub fn asked_by(flags: Flags) -> Asked
    ensures { result ≡ asked_by flags }
{
    Asked {
        quiet: flags.quiet,
        stop: flags.stop,
        closing: Closing::Plan {
            journal: flags.journal,
            view: flags.json,
        },
    }
}

/// What is asked where facts are: no reply to a command that was accepted, and no stop at one that was refused.
pub fn facts_asked(facts: Facts) -> Asked
    ensures { result ≡ facts_asked facts }
{
    Asked {
        quiet: true,
        stop: false,
        closing: Closing::Facts(facts),
    }
}
