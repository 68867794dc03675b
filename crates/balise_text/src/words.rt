//! Walks over the words of a line, or over the parts of a word.

ghost use Rattle.std.specs.Prelude.{◌≡◌, ◌==◌, ◌∷◌, ◌↔◌, [], IsTrue, MatchOption, length, position};
ghost use Rattle.balise_rules.specs.Variables.{var_named};
ghost use Rattle.balise_text.specs.Words.{id_of, no_more, number_of, parts_of, words_of};

use crate::number::number_up_to;
use balise_rules::{Id, Var};

/// Where a byte stands first.
fn find_byte(text: &[u8], mark: u8) -> Option<usize>
    ensures { result ≡ position (λ b. b == mark) text.now }
{
    text.iter().position(|byte| *byte == mark)
}

/// What is left of the words of a line, or of the parts of a word, between marks.
#[derive(Clone, Copy)]
pub(crate) struct Words<'a> {
    text: &'a [u8],
    mark: u8,
    over: bool,
}

impl<'a> Words<'a> {
    ghost use Rattle.balise_text.specs.Left.{left, up_to, TakesPart};

    /// The parts of a text.
    pub(crate) fn new(text: &'a [u8], mark: u8) -> Words<'a>
        ensures { left result ≡ parts_of mark text.now }
    {
        Words {
            text,
            mark,
            over: false,
        }
    }

    /// The words of a line.
    pub(crate) fn of_line(line: &'a [u8]) -> Words<'a>
        ensures { left result ≡ words_of line.now }
    {
        Words::new(line, b' ')
    }

    /// Whether no part comes any more.
    pub(crate) fn is_over(self) -> bool
        ensures { IsTrue result ↔ (left self.entry ≡ []) }
    {
        self.over
    }

    /// This value, where no part comes any more.
    #[inline(always)]
    pub(crate) fn end_with<T: Drop>(self, value: T) -> Option<T>
        ensures { result ≡ no_more (left self.entry) value }
    {
        if self.over { Some(value) } else { None }
    }

    /// The next part, and what follows it.
    pub(crate) fn next(self) -> Option<(&'a [u8], Words<'a>)>
        ensures { MatchOption result (left self.entry ≡ []) (λ p. left self.entry ≡ p.0.now ∷ left p.1) }
    {
        if self.over {
            return None;
        }
        match find_byte(self.text, self.mark) {
            Some(at) => Some((
                &self.text[..at],
                Words {
                    text: &self.text[at + 1..],
                    mark: self.mark,
                    over: false,
                },
            )),
            None => Some((
                self.text,
                Words {
                    text: self.text,
                    mark: self.mark,
                    over: true,
                },
            )),
        }
    }

    /// The number that comes next.
    pub(crate) fn number(self) -> Option<(u32, Words<'a>)>
        ensures { TakesPart number_of (left self.entry) result }
    {
        if self.over {
            return None;
        }
        let Some((number, len)) = number_up_to(self.text, self.mark) else {
            return None;
        };
        Some((number, self.after(len)))
    }

    // What follows the next part, which has `len` bytes.
    #[inline(always)]
    fn after(self, len: usize) -> Words<'a>
        requires part { len ≡ length (up_to self.mark self.text.now) }
        ensures { parts_of self.entry.mark self.entry.text.now ≡ up_to self.entry.mark self.entry.text.now ∷ left result }
    {
        if len >= self.text.len() {
            return Words {
                text: self.text,
                mark: self.mark,
                over: true,
            };
        }
        Words {
            text: &self.text[len + 1..],
            mark: self.mark,
            over: false,
        }
    }

    /// The identity that comes next.
    pub(crate) fn id(self) -> Option<(Id, Words<'a>)>
        ensures { TakesPart id_of (left self.entry) result }
    {
        let (word, rest) = self.next()?;
        let id = read_id(word)?;
        Some((id, rest))
    }

    /// The variable that comes next.
    pub(crate) fn var(self) -> Option<(Var, Words<'a>)>
        ensures { TakesPart var_named (left self.entry) result }
    {
        let (word, rest) = self.next()?;
        let var = Var::from_bytes(word)?;
        Some((var, rest))
    }
}

/// The identity that a word is: country and number with a point between them.
fn read_id(word: &[u8]) -> Option<Id>
    ensures { result ≡ id_of word.now }
{
    let (country, rest) = Words::new(word, b'.').number()?;
    let (number, rest) = rest.number()?;
    rest.end_with(Id { country, number })
}
