//! What a line of the plan is.

ghost use Rattle.std.specs.Prelude.{◌≡◌};
ghost use Rattle.balise_text.specs.PlanLines.{plan_line_of};

/// What a line of the plan is, by its words.
#[derive(Clone, Copy, Debug, PartialEq, Eq)]
pub enum PlanLine {
    /// `plan 1`.
    FirstLine,
    /// `group`.
    GroupLine,
    /// `edits`: the commands come after it.
    EditsLine,
    /// Begins with `journal ` and its blank.
    JournalLine,
    /// No byte.
    Empty,
    /// Any other, in a group a telegram's.
    TelegramLine,
}

/// What a line, without its end, is.
pub fn read_plan_line(line: &[u8]) -> PlanLine
    ensures { result ≡ plan_line_of line.now }
{
    if line == b"plan 1".as_slice() {
        return PlanLine::FirstLine;
    }
    if line == b"group".as_slice() {
        return PlanLine::GroupLine;
    }
    if line == b"edits".as_slice() {
        return PlanLine::EditsLine;
    }
    if line.starts_with(b"journal ") {
        return PlanLine::JournalLine;
    }
    if line.is_empty() {
        return PlanLine::Empty;
    }
    PlanLine::TelegramLine
}
