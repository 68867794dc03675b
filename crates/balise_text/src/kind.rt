//! The names of the nine edits.

ghost use Rattle.std.specs.Prelude.{◌≡◌};
ghost use Rattle.balise_text.specs.Kinds.{kind_of};

/// One of the nine edits, by its name in a command or in a journal.
#[derive(Clone, Copy)]
pub(crate) enum Kind {
    Set,
    SetHead,
    Insert,
    Delete,
    Move,
    Add,
    Drop,
    Renumber,
    Turn,
}

/// The edit that a word names.
pub(crate) fn read_kind(word: &[u8]) -> Option<Kind>
    ensures { result ≡ kind_of word.now }
{
    match word {
        b"set" => Some(Kind::Set),
        b"seth" => Some(Kind::SetHead),
        b"insert" => Some(Kind::Insert),
        b"delete" => Some(Kind::Delete),
        b"move" => Some(Kind::Move),
        b"add" => Some(Kind::Add),
        b"drop" => Some(Kind::Drop),
        b"renumber" => Some(Kind::Renumber),
        b"turn" => Some(Kind::Turn),
        _ => None,
    }
}
